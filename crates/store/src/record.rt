// Where a paragraph's text lies, and its quote depth.
#[derive(Clone, Copy)]
pub struct Record {
    pub depth: u32,
    pub start: usize,
    pub length: usize,
}
