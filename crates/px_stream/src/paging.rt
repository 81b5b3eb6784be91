// The calls of a disk on a frame, with Scratch for their faults.
ghost use Rattle.std.specs.Prelude.{◌≡◌, ◌≤◌, ◌+◌, ℕ, List, [], length, true, OnOk, OnErr, IfErr};
ghost use Rattle.std.specs.Option.{option_map};
ghost use Rattle.px_core.specs.Shown.{Only, NoFile, Worked, StopsAt, Gives, HasRoom, written, Tells};
ghost use Rattle.px_meaning.specs.Graph.{room_of};
ghost use Rattle.px_pages.specs.Page.{IsPageLen, tuples_of};
ghost use Rattle.px_stream.specs.Views.{IsPage};
ghost use Rattle.px_stream.specs.Stream.{tuple, lone_page};

use crate::Head;
use px_core::{Disk, Failed, Stop};
use px_frames::Frame;
use px_pages::{PageWriter, kinds};

// Makes a file empty.
pub(crate) fn clear_file<D: Disk>(disk: &mut D, file: u32) -> Result<(), Stop>
    ensures empty { OnOk result ((D.shown disk.old).tells ≡ true → Tells (D.shown disk.new) file []) }
    ensures ok { OnOk result (Worked (Only file) 0 0 (D.shown disk.old) (D.shown disk.new)) }
    ensures err { IfErr result (StopsAt Stop.Scratch (Only file) 0 0 (D.shown disk.old) (D.shown disk.new)) }
{
    match disk.clear(file) {
        Ok(()) => Ok(()),
        Err(Failed) => Err(Stop::Scratch),
    }
}

// Writes the frame as a page of a file.
pub(crate) fn write_page<D: Disk>(
    disk: &mut D,
    file: u32,
    page: u64,
    frame: &Frame,
) -> Result<(), Stop>
    requires { length frame.now ≡ (D.shown disk.old).page_len }
    ensures written { OnOk result ((D.shown disk.new).files file ≡ option_map (written page frame.now) ((D.shown disk.old).files file)) }
    ensures limit { OnOk result ((ps : List (List ℕ)) → Tells (D.shown disk.old) file ps → HasRoom page ps) }
    ensures ok { OnOk result (Worked (Only file) 0 1 (D.shown disk.old) (D.shown disk.new)) }
    ensures err { IfErr result (StopsAt Stop.Scratch (Only file) 0 0 (D.shown disk.old) (D.shown disk.new)) }
{
    match disk.write(file, page, frame.bytes()) {
        Ok(()) => Ok(()),
        Err(Failed) => Err(Stop::Scratch),
    }
}

// Reads a page of a file into the frame.
pub(crate) fn read_page<D: Disk>(
    disk: &mut D,
    file: u32,
    page: u64,
    frame: &mut Frame,
) -> Result<(), Stop>
    requires { length frame.old ≡ (D.shown disk.old).page_len }
    ensures gives { OnOk result ((ps : List (List ℕ)) → Tells (D.shown disk.old) file ps → Gives page frame.new ps) }
    ensures len { length frame.new ≡ length frame.old }
    ensures ok { OnOk result (Worked NoFile 1 0 (D.shown disk.old) (D.shown disk.new)) }
    ensures err { IfErr result (StopsAt Stop.Scratch (Only file) 0 0 (D.shown disk.old) (D.shown disk.new)) }
{
    match disk.read(file, page, frame.bytes_mut()) {
        Ok(()) => Ok(()),
        Err(Failed) => Err(Stop::Scratch),
    }
}

// Makes the frame a page without tuples.
pub(crate) fn start_page(frame: &mut Frame) -> PageWriter
    requires { IsPageLen (length frame.old) }
    ensures page { IsPage result frame.new }
    ensures tuples { tuples_of frame.new ≡ [] }
    ensures len { length frame.new ≡ length frame.old }
{
    PageWriter::start(frame.bytes_mut(), kinds::STREAM)
}

// Makes the frame a page of this kind with this one tuple.
#[tactic(auto, unfolding(crate::specs::Stream::lone_page))]
pub(crate) fn single_page(frame: &mut Frame, kind: u8, head: Head, body: &[u8])
    requires len { IsPageLen (length frame.old) }
    requires room { 13 + length body.now ≤ room_of (length frame.old) }
    ensures page { frame.new ≡ lone_page (length frame.old) kind (tuple head body.now) }
    ensures len { length frame.new ≡ length frame.old }
{
    let mut page = PageWriter::start(frame.bytes_mut(), kind);
    page.append(frame.bytes_mut(), head.key, head.tag, body);
}
