ghost use Rattle.store.specs.Store.{admitted};
ghost use Rattle.std.specs.Prelude.{◌≡◌};

use terms::{Cause, Place};

// Refuses a record, or a buffer for one, that has another length than the place's, and then a place outside the span.
pub fn admit(place: Place, length: usize, span: u32) -> Result<(), Cause>
    ensures { result ≡ admitted place length span }
{
    if length != place.record_length() {
        return Err(Cause::Length);
    }
    if !place.is_inside(span) {
        return Err(Cause::Outside);
    }
    Ok(())
}
