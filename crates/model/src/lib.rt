// The definitions that a reader must believe, one file of specs/ for each section of the specification; no code. The one type that a
// caller lends and the definitions speak of is declared here.
#![tactic(auto)]

// One read: the number of its block, and the millisecond tick at which it came. C sees the same struct.
#[repr(C)]
#[derive(Clone, Copy)]
pub struct Entry {
    pub block: u32,
    pub tick: u32,
}
