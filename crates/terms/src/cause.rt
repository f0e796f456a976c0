// Why a store refuses.
mod number;

// Each cause with its number.
#[derive(Clone, Copy, Debug, PartialEq, Eq)]
pub enum Cause {
    // there is no record at the place
    Nothing = 1,
    // the place is outside the store's span
    Outside = 2,
    // the record, or the buffer for one, has another length than the place's record
    Length = 3,
    // no room is left
    Full = 4,
    // anything else that an untrue store says
    Other = 9,
}
