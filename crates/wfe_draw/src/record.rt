// Reads a record to its end, and closes what its entries leave.
ghost use Rattle.std.specs.Prelude.{◌≡◌, ◌<◌, ◌≤◌, [], ℕ, List, Option, Err, Some, length};
ghost use Rattle.wfe_outside.specs.Faults.{Rose};
ghost use Rattle.wfe_draw.specs.Readers.{Holds};
ghost use Rattle.wfe_draw.specs.Records.{Closes, Pictures, Reads, Turns};

use crate::part::Part;
use crate::reader::Reader;
use crate::stop::{NO_MEMORY, Stop, Unread};
use std::alloc::Global;
use wfe_draw_lives::{Picture, Scene};
use wfe_outside::Source;

// Bytes that are read at a time.
const PIECE: usize = 65_536;

/// How the reading goes on: to its end, or not to it.
#[derive(Clone, Copy)]
pub enum Ending {
    AtEnd,
    Unread { unread: Unread },
}

// Reads once, and takes what came.
fn turn<S: Source>(
    source: &mut S,
    piece: &mut [u8],
    reader: &mut Reader,
    scene: &mut Scene,
) -> Option<Ending>
    requires { 0 < length piece.old }
    ensures turned { (last : ℕ) (taken : List ℕ) → Holds last taken reader.old scene.old → Turns last taken result (S.left source.old) (S.left source.new) reader.new scene.new }
    ensures source { S.faults source.old ≤ S.faults source.new }
    ensures fault { result ≡ Some (Ending.Unread Unread.Fault) → Rose S.may_stand (S.faults source.old) (S.faults source.new) }
{
    match source.read(piece) {
        Err(_) => Some(Ending::Unread {
            unread: Unread::Fault,
        }),
        Ok(0) => Some(Ending::AtEnd),
        Ok(count) => match reader.take_bytes(scene, &piece[..count]) {
            Ok(()) => None,
            Err(stop) => Some(Ending::Unread {
                unread: Unread::Stopped { stop },
            }),
        },
    }
}

// Reads from the start, until no more is read.
fn read_all<S: Source>(
    source: &mut S,
    piece: &mut [u8],
    reader: &mut Reader,
    scene: &mut Scene,
) -> Ending
    requires piece { 0 < length piece.old }
    requires fresh { (last : ℕ) × Holds last [] reader.old scene.old }
    ensures reads { (last : ℕ) → Holds last [] reader.old scene.old → Reads last result (S.left source.old) (S.left source.new) reader.new scene.new }
    ensures source { S.faults source.old ≤ S.faults source.new }
    ensures fault { result ≡ Ending.Unread Unread.Fault → Rose S.may_stand (S.faults source.old) (S.faults source.new) }
{
    // Each turn takes a byte, and a record with a byte more than these is bad.
    for _ in 0..1_073_741_825u32 {
        if let Some(ending) = turn(source, piece, reader, scene) {
            return ending;
        }
    }
    unreachable!()
}

// What is drawn of a record that was read to its end.
fn close(mut reader: Reader, mut scene: Scene) -> Result<Picture, Stop>
    ensures { (last : ℕ) (taken : List ℕ) → Holds last taken reader scene → Closes last taken result }
{
    match reader.finish(&mut scene) {
        Err(stop) => Err(stop),
        Ok(()) => match scene.close() {
            Ok(picture) => Ok(picture),
            Err(_) => Err(Stop::NoMemory),
        },
    }
}

// What the end of the reading gives.
fn conclude(ending: Ending, reader: Reader, scene: Scene) -> Result<Picture, Unread>
    ensures pictures { (last : ℕ) (before left : Option (List ℕ)) → Reads last ending before left reader scene → Pictures last result before left }
    ensures fault { result ≡ Err Unread.Fault → ending ≡ Ending.Unread Unread.Fault }
{
    match ending {
        Ending::Unread { unread } => Err(unread),
        Ending::AtEnd => match close(reader, scene) {
            Ok(picture) => Ok(picture),
            Err(stop) => Err(Unread::Stopped { stop }),
        },
    }
}

/// Reads a record to its end, and answers what is drawn of it.
pub fn read_picture<S: Source>(alloc: Global, source: &mut S, part: Part) -> Result<Picture, Unread>
    ensures pictures { Pictures part.last result (S.left source.old) (S.left source.new) }
    ensures source { S.faults source.old ≤ S.faults source.new }
    ensures fault { result ≡ Err Unread.Fault → Rose S.may_stand (S.faults source.old) (S.faults source.new) }
{
    let Ok(mut piece) = vec![in alloc; 0u8; PIECE] else {
        return Err(NO_MEMORY);
    };
    let Ok(mut scene) = Scene::new(alloc) else {
        return Err(NO_MEMORY);
    };
    let mut reader = Reader::new(part);
    let ending = read_all(source, &mut piece, &mut reader, &mut scene);
    conclude(ending, reader, scene)
}
