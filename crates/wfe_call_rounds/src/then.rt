// What a step of a call leads to.
use wfe_core::Answer;

/// Where the call stands next; another round, which begins; or the answer.
pub enum Then<A> {
    Stands(A),
    Begins,
    Answers(Answer),
}
