// How far a job is: how many records are done, and which of them were set aside.
#[derive(Clone, Copy)]
pub struct Counts {
    pub done: u32,
    pub aside: u32,
    // Of the first record set aside, 0 if there is none.
    pub index: u32,
    pub reason: u8,
}

// The same of a wake under way, whose place says how many records are done.
#[derive(Clone, Copy)]
pub(crate) struct Aside {
    pub(crate) count: u32,
    // Of the first record set aside, 0 if there is none.
    pub(crate) index: u32,
    pub(crate) reason: u8,
}
