// One place of work space: plain numbers that a call fills in and reads again, since the memory is lent as it lies. Each walk
// says what it keeps where; what a place holds before a call, and after it, means nothing.
#[derive(Clone, Copy, Default)]
pub struct Place {
    pub state: u32,
    pub list: u32,
    pub other: u32,
    pub number: u32,
    pub count: u64,
}
