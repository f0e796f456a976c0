ghost use Rattle.logstore.specs.Laws.{EmptyLog, EndsInARecord, LastRecordCounts, LongestRecord, OneRecordMore, RoomCases, ShownRecordsStand, StopsAtNoRecord};
ghost use Rattle.logstore.specs.Views.{log_of};
ghost use Rattle.store.specs.Store.{Kept};
ghost use Rattle.store.specs.Store.{Question.asks_span};

use crate::log::Log;

// The laws of the form: theorems, with no code.
pub fn laws_stand()
    ensures empty { EmptyLog }
    ensures more { OneRecordMore }
    ensures ends { EndsInARecord }
    ensures last { LastRecordCounts }
    ensures shown { ShownRecordsStand }
    ensures stops { StopsAtNoRecord }
    ensures longest { LongestRecord }
    ensures rooms { RoomCases }
{}

// A log keeps its word to one who knows it only by the interface. A function of its own says of this make that what the interface calls its
// meaning is what its records mean.
pub fn keeps_its_word(log: &mut Log) -> u32
    ensures { Kept (log_of log.old) asks_span result (log_of log.new) }
{
    store::keeps_its_word(log)
}
