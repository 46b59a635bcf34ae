// Laws of events. None of these functions changes anything: each contract is a law.
ghost use Rattle.sb_services.specs.EventLaws.{RefusedCreatesChangeNothing, RefusedOpensChangeNothing, CreatesAreFound, CreatesGrantTheirEvent, CreatesKeepEvents, OpensGrantTheirEvent, OpensLeaveEvents};

use crate::event_rows::EventRow;
use sb_names::{puts_are_found, puts_keep_rows};

/// A call that neither made nor opened an event leaves events and handles as they were.
pub fn refused_event_calls_change_nothing()
    ensures creates { RefusedCreatesChangeNothing }
    ensures opens { RefusedOpensChangeNothing }
{}

/// The event found under a name is the one that was made there, whatever call came after.
#[tactic(auto, using(crate::proofs::EventLaws::creates_are_found))]
pub fn events_are_found_where_made()
    ensures creates { CreatesAreFound }
    ensures opens { OpensLeaveEvents }
{
    puts_are_found::<EventRow>();
}

/// Events keep their names and stay the same: each row is there after each call that makes or opens an event.
#[tactic(auto, using(crate::proofs::EventLaws::creates_keep_events))]
pub fn events_stay()
    ensures { CreatesKeepEvents }
{
    puts_keep_rows::<EventRow>();
}

/// A call that makes or opens an event grants its handle on the event that is found under the name.
#[tactic(auto, using(crate::proofs::EventGrants::creates_grant_their_event, crate::proofs::EventGrants::opens_grant_their_event))]
pub fn calls_grant_their_event()
    ensures creates { CreatesGrantTheirEvent }
    ensures opens { OpensGrantTheirEvent }
{
    puts_are_found::<EventRow>();
}
