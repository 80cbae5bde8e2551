// Which segment file comes next.
ghost use Rattle.std.specs.Prelude.{IfSome, IfNone};
ghost use Rattle.nn_load.specs.Queue.{IsNextFinalized, HasNoFinalized, IsNextInProgress, HasNoInProgress};

use crate::segment::Place;
use nn_base::{FileName, FirstTxid, Span, Txid};

/// The first finalized segment, from the place `from` of a listing on, that ends after `last`; and its place.
pub(crate) fn next_finalized(place: &Place, from: usize, last: Txid) -> Option<(usize, Span)>
    ensures some { IfSome result (λ found. IsNextFinalized place.now.names.items from last found.0 found.1) }
    ensures none { IfNone result (HasNoFinalized place.now.names.items from last) }
{
    for k in from..place.names.len() {
        if let FileName::Edits(span) = place.names[k] {
            if last.0 < span.last.0 {
                return Some((k, span));
            }
        }
    }
    None
}

/// The first segment in progress, from the place `from` of a listing on; and its place.
pub(crate) fn next_in_progress(place: &Place, from: usize) -> Option<(usize, FirstTxid)>
    ensures some { IfSome result (λ found. IsNextInProgress place.now.names.items from found.0 found.1) }
    ensures none { IfNone result (HasNoInProgress place.now.names.items from) }
{
    for k in from..place.names.len() {
        if let FileName::InProgress(first) = place.names[k] {
            // Read, so that its range is known.
            let _id = first.0.0;
            return Some((k, first));
        }
    }
    None
}
