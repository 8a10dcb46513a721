use crate::place::Place;
use pk_values::Bytes;

/// Bytes at a place.
#[derive(Debug, Drop)]
pub struct Stored {
    pub place: Place,
    pub bytes: Bytes,
}
