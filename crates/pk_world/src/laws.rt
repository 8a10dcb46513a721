ghost use Rattle.pk_world.specs.Laws.{MemoryIsHonest};

/// Whatever a station in memory has gone through, what it says that a crash may leave is what the disk model allows: of
/// each file, what it held at its last sync, but for what was written since.
pub fn a_station_in_memory_is_honest()
    ensures { MemoryIsHonest }
{}
