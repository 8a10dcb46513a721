ghost use Rattle.std.specs.Prelude.{◌≡◌, IfOk};

use arrayvec::ArrayVec;
use pk_values::Memory;
use std::alloc::Global;
use std::marker::Model;
use std::sync::ArcSlice;

/// The digits of a number. Contracts see the list of their bytes. Up to 8 of them take no memory, and
/// longer numbers are kept by one address and one length, so that no token is wider for them.
#[derive(Debug, Drop)]
pub struct Digits {
    kept: Kept,
}

/// Where the digits stand.
#[derive(Debug, Drop)]
enum Kept {
    Short(ArrayVec<u8, 8>),
    Long(ArcSlice<u8>),
}

impl Model for Digits {
    ghost use Rattle.std.specs.Prelude.{List, ℕ};
    ghost use Rattle.std.specs.Coded.{coded_list, coded_ℕ};
    ghost use Rattle.pk_lex.specs.Kept.{kept_bytes};

    ghost Value = { List ℕ };

    ghost coded = { coded_list coded_ℕ };

    ghost view = { λ d. kept_bytes d.kept };
}

impl Digits {
    /// The same bytes, in order.
    #[tactic(auto, unfolding(crate::specs::Kept::kept_bytes))]
    pub fn copy(alloc: Global, bytes: &[u8]) -> Result<Digits, Memory>
        ensures { IfOk result (λ copy. copy ≡ bytes.now) }
    {
        let mut short = ArrayVec::new();
        match short.try_extend_from_slice(bytes) {
            Ok(()) => Ok(Digits {
                kept: Kept::Short(short),
            }),
            Err(_) => {
                let bytes = ArcSlice::from_vec(Vec::from_slice(alloc, bytes)?)?;
                Ok(Digits {
                    kept: Kept::Long(bytes),
                })
            }
        }
    }

    /// The bytes, in order.
    #[tactic(auto, unfolding(crate::specs::Kept::kept_bytes))]
    pub fn as_slice(&self) -> &[u8]
        ensures { result.now ≡ self.now }
    {
        match &self.kept {
            Kept::Short(bytes) => bytes.as_slice(),
            Kept::Long(bytes) => bytes.as_slice(),
        }
    }
}
