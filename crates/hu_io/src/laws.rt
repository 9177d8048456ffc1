//! When files and sinks in memory can't fail, as laws of their counts.

ghost use Rattle.hu_io.specs.MemoryFiles.{NamedFilesNeverFail};
ghost use Rattle.hu_io.specs.MemorySink.{RoomySinksNeverFail};

/// A read of a `MemoryFiles` doesn't fail while no call is to fail and the name is there.
pub fn named_files_never_fail()
    ensures { NamedFilesNeverFail }
{}

/// `put_all` to a `MemorySink` doesn't fail while no call is to fail and the whole text has room.
pub fn roomy_sinks_never_fail()
    ensures { RoomySinksNeverFail }
{}
