/// The two files of a base.
#[derive(Clone, Copy, Debug, PartialEq, Eq)]
pub enum Which {
    Log,
    Pages,
}

/// The outside couldn't do what was asked.
#[derive(Clone, Copy, Debug, PartialEq, Eq)]
pub struct Failed;

/// Two files, and where replies go.
///
/// What a crash may leave of the files is a promise for a station that is honest and tells what it holds. Nobody can say
/// of a real disk that it is honest: that is the premise of every clause on crashes.
pub trait Station {
    ghost use Rattle.std.specs.Prelude.{◌≡◌, ◌↔◌, ℕ, ◌+◌, ◌^◌, ◌≤◌, Bool, IsTrue, List, ◌++◌, length, take, drop, OnOk, OnErr, IfOk};
    ghost use Rattle.pk_world.specs.Rose.{Rose};
    ghost use Rattle.pk_world.specs.Clock.{Passes};
    ghost use Rattle.pk_world.specs.Files.{Files, file_of, with_file, overwritten, TornIn};

    /// Whether it tells what its files hold and which bytes its sink has taken.
    ghost tells: { Self → Bool };

    /// What reads give of its files, where it tells that.
    ghost content: { Self → Files };

    /// The bytes that its sink has taken, where it tells them.
    ghost told: { Self → List ℕ };

    /// How many calls on its files have failed, up to the greatest u64.
    ghost disk_faults: { Self → ℕ };

    /// How many calls of `tell` have failed, up to the greatest u64.
    ghost sink_faults: { Self → ℕ };

    /// A clock. It never falls.
    ghost now: { Self → ℕ };

    /// Whether a crash now may leave these files.
    ghost may_leave: { Self → Files → Type 0 };

    /// Whether at some moment since this clock, inside a call too, a crash might have left these files while the sink had
    /// taken these bytes.
    ghost left_since: { Self → ℕ → Files → List ℕ → Type 0 };

    /// Whether a crash leaves no more than `may_leave` and `left_since` say.
    ghost honest: { Self → Type 0 };

    /// The length of a file in bytes, at most 2^62. `Failed` comes only where the count of the disk's faults rose, here
    /// and in the next three calls.
    fn size(&mut self, which: Which) -> Result<u64, Failed>
        ensures size { IfOk result (λ n. IsTrue (tells self.old) → n ≡ length (file_of (content self.old) which)) }
        ensures most { IfOk result (λ n. n ≤ 2 ^ 62) }
        ensures content { content self.new ≡ content self.old }
        ensures during { honest self.old → IsTrue (tells self.old) → (f : Files) (s : List ℕ) → left_since self.new (now self.old) f s → may_leave self.old f × (s ≡ told self.old) }
        ensures tells { tells self.new ≡ tells self.old }
        ensures honest { honest self.old ↔ honest self.new }
        ensures time { Passes (now self.old) (now self.new) (left_since self.old) (left_since self.new) }
        ensures told { told self.new ≡ told self.old }
        ensures sink { sink_faults self.new ≡ sink_faults self.old }
        ensures count { disk_faults self.old ≤ disk_faults self.new }
        ensures unfailed { OnOk result (disk_faults self.new ≡ disk_faults self.old) }
        ensures cause { OnErr result (Rose (disk_faults self.old) (disk_faults self.new)) };

    /// Fills the room with the bytes of a file from `at` on, which are all in the file.
    fn read_at(&mut self, which: Which, at: u64, room: &mut [u8]) -> Result<(), Failed>
        requires { IsTrue (tells self.old) → at + length room.old ≤ length (file_of (content self.old) which) }
        ensures read { OnOk result (IsTrue (tells self.old) → room.new ≡ take (length room.old) (drop at (file_of (content self.old) which))) }
        ensures content { content self.new ≡ content self.old }
        ensures during { honest self.old → IsTrue (tells self.old) → (f : Files) (s : List ℕ) → left_since self.new (now self.old) f s → may_leave self.old f × (s ≡ told self.old) }
        ensures tells { tells self.new ≡ tells self.old }
        ensures honest { honest self.old ↔ honest self.new }
        ensures time { Passes (now self.old) (now self.new) (left_since self.old) (left_since self.new) }
        ensures told { told self.new ≡ told self.old }
        ensures sink { sink_faults self.new ≡ sink_faults self.old }
        ensures count { disk_faults self.old ≤ disk_faults self.new }
        ensures unfailed { OnOk result (disk_faults self.new ≡ disk_faults self.old) }
        ensures cause { OnErr result (Rose (disk_faults self.old) (disk_faults self.new)) };

    /// Writes over the bytes of a file from `at` on, which is no farther than its end, and past its end where they reach
    /// there, but not past 2^62. After `Failed`, and after a crash before the file's next sync, the bytes of that range
    /// may be any, and the file may end anywhere between its old end and the range's.
    fn write_at(&mut self, which: Which, at: u64, bytes: &[u8]) -> Result<(), Failed>
        requires { IsTrue (tells self.old) → at ≤ length (file_of (content self.old) which) }
        ensures written { OnOk result (IsTrue (tells self.old) → content self.new ≡ with_file (content self.old) which (overwritten (file_of (content self.old) which) at bytes.now)) }
        ensures fits { OnOk result (at + length bytes.now ≤ 2 ^ 62) }
        ensures torn { IsTrue (tells self.old) → TornIn which at (length bytes.now) (content self.old) (content self.new) }
        ensures during { honest self.old → IsTrue (tells self.old) → (f : Files) (s : List ℕ) → left_since self.new (now self.old) f s → ((d : Files) × may_leave self.old d × TornIn which at (length bytes.now) d f) × (s ≡ told self.old) }
        ensures tells { tells self.new ≡ tells self.old }
        ensures honest { honest self.old ↔ honest self.new }
        ensures time { Passes (now self.old) (now self.new) (left_since self.old) (left_since self.new) }
        ensures told { told self.new ≡ told self.old }
        ensures sink { sink_faults self.new ≡ sink_faults self.old }
        ensures count { disk_faults self.old ≤ disk_faults self.new }
        ensures unfailed { OnOk result (disk_faults self.new ≡ disk_faults self.old) }
        ensures cause { OnErr result (Rose (disk_faults self.old) (disk_faults self.new)) };

    /// Brings a file to rest. After `Ok` a crash leaves of it exactly what it holds, until it is written again.
    fn sync(&mut self, which: Which) -> Result<(), Failed>
        ensures durable { OnOk result (honest self.old → IsTrue (tells self.old) → (f : Files) → may_leave self.new f → file_of f which ≡ file_of (content self.old) which) }
        ensures content { content self.new ≡ content self.old }
        ensures during { honest self.old → IsTrue (tells self.old) → (f : Files) (s : List ℕ) → left_since self.new (now self.old) f s → may_leave self.old f × (s ≡ told self.old) }
        ensures tells { tells self.new ≡ tells self.old }
        ensures honest { honest self.old ↔ honest self.new }
        ensures time { Passes (now self.old) (now self.new) (left_since self.old) (left_since self.new) }
        ensures told { told self.new ≡ told self.old }
        ensures sink { sink_faults self.new ≡ sink_faults self.old }
        ensures count { disk_faults self.old ≤ disk_faults self.new }
        ensures unfailed { OnOk result (disk_faults self.new ≡ disk_faults self.old) }
        ensures cause { OnErr result (Rose (disk_faults self.old) (disk_faults self.new)) };

    /// Hands bytes to the sink. `Failed` comes only where the count of the sink's faults rose, and then
    /// the sink may have taken a part of the bytes, from the front, as it may have inside the call.
    fn tell(&mut self, bytes: &[u8]) -> Result<(), Failed>
        ensures ok { OnOk result (IsTrue (tells self.old) → told self.new ≡ told self.old ++ bytes.now) }
        ensures err { IsTrue (tells self.old) → (n : ℕ) × (n ≤ length bytes.now) × (told self.new ≡ told self.old ++ take n bytes.now) }
        ensures content { content self.new ≡ content self.old }
        ensures during { honest self.old → IsTrue (tells self.old) → (f : Files) (s : List ℕ) → left_since self.new (now self.old) f s → may_leave self.old f × ((n : ℕ) × (n ≤ length bytes.now) × (s ≡ told self.old ++ take n bytes.now)) }
        ensures tells { tells self.new ≡ tells self.old }
        ensures honest { honest self.old ↔ honest self.new }
        ensures time { Passes (now self.old) (now self.new) (left_since self.old) (left_since self.new) }
        ensures disk { disk_faults self.new ≡ disk_faults self.old }

        // A fault is counted, and nothing else is.
        ensures count { sink_faults self.old ≤ sink_faults self.new }
        ensures unfailed { OnOk result (sink_faults self.new ≡ sink_faults self.old) }
        ensures cause { OnErr result (Rose (sink_faults self.old) (sink_faults self.new)) };

    /// A crash now is one since any earlier moment.
    ghost counts_now: { (x : Self) (t : ℕ) (f : Files) → t ≤ now x → may_leave x f → left_since x t f (told x) };

    /// Since now a crash leaves what it leaves now.
    ghost only_now: { (x : Self) (f : Files) (s : List ℕ) → honest x → IsTrue (tells x) → left_since x (now x) f s → may_leave x f × (s ≡ told x) };

    /// What was left since a moment was left since any earlier one.
    ghost earlier: { (x : Self) (t u : ℕ) (f : Files) (s : List ℕ) → t ≤ u → u ≤ now x → left_since x u f s → left_since x t f s };

    /// The files as they read are among those that a crash may leave.
    ghost as_read: { (x : Self) → honest x → IsTrue (tells x) → may_leave x (content x) };
}
