// What the readers have read.
use parts::Part;
use refusals::Refusal;

// Where what is left begins, and what was read, or its refusal: what is no sum is refused before that, so reading goes on.
#[derive(Clone, Copy)]
pub struct Cursor {
    pub next: usize,
    pub part: Result<Part, Refusal>,
}
