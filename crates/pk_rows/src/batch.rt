use crate::place::Place;
use crate::stored::Stored;
use pk_values::Items;

/// What a commit changes: the places that it takes out, and what it then puts.
///
/// `Rows::commit` asks that each list ascends by place, that there is something at each place of `gone`, and of the sizes
/// what `CanCommit` of `specs/Batches.antt` says.
#[derive(Debug, Drop)]
pub struct Batch {
    pub gone: Items<Place>,
    pub put: Items<Stored>,
}
