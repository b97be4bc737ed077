// What a line got for its order.

use mem_base::DeskAnswer;

/// What a line got from the desk for its order: the answer, and the deliveries to listeners that it caused, which are those
/// of the desk's journal from number `from` on and before number `to`.
#[derive(Clone, Copy, Debug)]
pub struct Answered<'a> {
    pub answer: &'a DeskAnswer,
    pub from: usize,
    pub to: usize,
}
