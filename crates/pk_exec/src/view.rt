use pk_values::Row;
use pk_world::StoreErr;

/// The rows that a session sees of a table before its own edits. Each has an id of at least 1, and they
/// stand in the order of their ids.
pub trait View {
    ghost use Rattle.std.specs.Prelude.{◌≡◌, ℕ, ◌≤◌, Bool, List, Some, IsTrue, IfOk, IsErrOf};
    ghost use Rattle.pk_values.specs.declared.placed.Placed.{Placed};
    ghost use Rattle.pk_world.specs.declared.store_err.StoreErr.TheVariants as store_errs;
    ghost use Rattle.pk_world.specs.Rose.{Rose};
    ghost use Rattle.pk_schema.specs.Shapes.{Shape};
    ghost use Rattle.pk_schema.specs.Admits.{Admits};
    ghost use Rattle.pk_exec.specs.Rows.{AscendFrom, has_id, next_id, row_of};

    /// The rows that it stands for. Their ids are always its own; what else they hold is so where it
    /// tells its rows.
    ghost rows: { Self → List Placed };

    /// Whether it tells its rows.
    ghost tells: { Self → Bool };

    /// Which schemas it fits: they admit each row that it may answer, told or not.
    ghost fits: { Self → Shape → Type 0 };

    /// How often its disk has failed.
    ghost faults: { Self → ℕ };

    /// How often it met what was changed behind its back.
    ghost strays: { Self → ℕ };

    /// What stands for the references that it holds. No call changes it.
    ghost held: { Self → List ℕ };

    /// The least id above this one; `None` exactly where there is none.
    fn next_after(&mut self, id: u64) -> Result<Option<u64>, StoreErr>
        ensures next { IfOk result (λ next. next ≡ next_id id (rows self.old)) }
        // It stays what it is.
        ensures rows { rows self.new ≡ rows self.old }
        ensures tells { tells self.new ≡ tells self.old }
        ensures fits { (s : Shape) → fits self.old s → fits self.new s }
        ensures held { held self.new ≡ held self.old }
        // What is blamed was counted.
        ensures faults { faults self.old ≤ faults self.new }
        ensures strays { strays self.old ≤ strays self.new }
        ensures disk { IsErrOf result store_errs.Disk → Rose (faults self.old) (faults self.new) }
        ensures changed { IsErrOf result store_errs.Changed → Rose (strays self.old) (strays self.new) };

    /// The row of this id.
    fn row(&mut self, id: u64) -> Result<Row, StoreErr>
        requires { IsTrue (has_id (rows self.old) id) }
        ensures row { IfOk result (λ row. IsTrue (tells self.old) → row_of (rows self.old) id ≡ Some row) }
        ensures admitted { IfOk result (λ row. (s : Shape) → fits self.old s → Admits s row) }
        // It stays what it is.
        ensures rows { rows self.new ≡ rows self.old }
        ensures tells { tells self.new ≡ tells self.old }
        ensures fits { (s : Shape) → fits self.old s → fits self.new s }
        ensures held { held self.new ≡ held self.old }
        // What is blamed was counted.
        ensures faults { faults self.old ≤ faults self.new }
        ensures strays { strays self.old ≤ strays self.new }
        ensures disk { IsErrOf result store_errs.Disk → Rose (faults self.old) (faults self.new) }
        ensures changed { IsErrOf result store_errs.Changed → Rose (strays self.old) (strays self.new) };

    /// The ids ascend from 1.
    ghost ascend: { (view : Self) → AscendFrom 1 (rows view) };
}
