//! `serve`: the chip in an image file, served to clients on a port or a Unix socket.
ghost use Rattle.std.specs.Prelude.{◌≡◌, ◌*◌, ◌<◌, ◌≤◌, length, string_bytes, IfOk, IfErr, true};
ghost use Rattle.std.specs.Prelude.{◌⊎◌, false, if◌then◌else◌, IsErr, IsFalse, None, Some};
ghost use Rattle.block_device.specs.Facts.{IsDiskReady};
ghost use Rattle.chip_model.specs.Chip.{is_idle};
ghost use Rattle.chip_model.specs.Geometry.{IsChipSize};
ghost use Rattle.flash_disk.specs.Mounting.{BeginsOn, IsQuiet, OpenedFrom};
ghost use Rattle.sector_survey.specs.Cleanness.{HasCleanGroups};
ghost use Rattle.std.specs.Thread.{IsSend};
ghost use Rattle.norbd_run.specs.Listening.{IsRefusal, TellsServing, WritesText, ended_text};
ghost use Rattle.norbd_run.specs.Listening.{has_colon, serving_text, told_of_file, told_of_mount};
ghost use Rattle.norbd_run.specs.Listening.{told_of_record};
ghost use Rattle.norbd_run.specs.Listening.{policy_of, told_of_serving};
ghost use Rattle.norbd_run.specs.Opening.{IsReason};
ghost use Rattle.norbd_line.specs.Line.{IsConns, IsPlace};

use crate::host::Host;
use crate::image_disk::{bytes_of, copied_disk, firmness_of, hold_image};
use crate::image_log::{looked_through, settle, take_up, told_of_log};
use crate::listening::listen_at;
use crate::script::told_of_probe;
use crate::watching::Watching;
use block_device::{Disk, DiskError, Sink, send};
use chip_model::SpiBus;
use chip_simulator::{PromptChip, SimError};
use disk_log::{ImageDisk, LoggedDisk, Sum, begin_anew};
use erase_journal::Firmness;
use flash_disk::{FlashDisk, MountError, Provenance};
use nbd_durable::{Durable, Policy};
use nbd_history::{Hands, Opened};
use nbd_share::{
    Chronicle, FullRecord, LEDGER_PARTS, NoRecord, OneServer, RecordError, Recorder, Row, Server,
    Shared,
};
use nbd_wire::Export;
use nor_layout::BLOCK_LEN;
use norbd_image::{FileImages, Held, ImageFile, MemoryDisk, log_beside};
use norbd_line::{Cause, Fault, Place, SyncPolicy, TidyPolicy};
use norbd_serve::{Connections, Listener, OpenGate, ServeFault, StatusSocket, serve};
use norbd_status::{CountedBus, Wear};
use std::alloc::{AllocError, Global};
use std::fs;
use std::fs::OpenFile;
use std::marker::Brand;
use std::os::unix::net::UnixListener;
use std::rt::Files;
use std::sync::Arc;
use std::sync::ledger::{Blank, Ledger};
use std::time::Duration;

/// How long a client may negotiate.
const NEGOTIATION_SECONDS: u64 = 10;

/// What a line `serve` asks: the path of the image, of which it is told while it is served that
/// its file was removed; where it listens; how many connections, from 1 to 64, and whether serving
/// ends once so many were served in all: else so many are served at once, without end; whether a
/// row of each command is kept; when the file is synced, and when the disk is tidied; whether torn
/// bits of an image are taken to waver; the largest length of a READ or WRITE in bytes that clients
/// are told, and the largest that is taken; whether the disk can't be changed; whether it is told
/// what becomes of connections and of refused requests; and where what the server does is told, if
/// that is asked.
#[derive(Clone, Copy)]
pub struct Asked<'a> {
    pub image: &'a str,
    pub place: Place<'a>,
    pub conns: u32,
    pub ends: bool,
    pub record: bool,
    pub sync: SyncPolicy,
    pub tidy: TidyPolicy,
    pub firm: bool,
    pub told_len: u32,
    pub max_len: u32,
    pub read_only: bool,
    pub verbose: bool,
    pub status: Option<&'a Look>,
}

/// The Unix socket at which a server says what it does, and where the erases of its chip are
/// counted.
#[derive(Drop)]
pub struct Look {
    pub listener: UnixListener,
    pub wear: Arc<Wear, Global>,
}

/// Where erases are counted, if that is asked.
pub(crate) fn wear_of(asked: Asked<'_>) -> Result<Option<Arc<Wear, Global>>, Fault>
    ensures { IfErr result IsRefusal }
{
    let Some(look) = asked.status else {
        return Ok(None);
    };
    match Arc::try_clone(&look.wear) {
        Ok(wear) => Ok(Some(wear)),
        Err(_) => Err(Fault::NoMemory),
    }
}

/// Serves the chip in the file at a path to so many connections at a place, and ends when all have
/// ended, or serves without end. The file of a Unix socket is taken away at the end. One
/// that can't be changed is a copy of the chip in memory: nothing of the image's file is written.
///
/// Told to `writer`: a line before the first connection is accepted, one after the last has ended,
/// and where rows are kept a third with their number.
///
/// `BadAddress` where the text of the address is none, `NoSocket` where the place can't be had: the
/// image isn't opened then. Before a line is told: `InUse` where another process serves or formats
/// the image, and then nothing of it is read or written; `ImageFailed` where it can't be opened,
/// read or written, `BadImageSize` where no chip has so many bytes, the refusals of a mount, and
/// `NoMemory` where there is no memory for the chip, the disk, its record or the lists. Then
/// `NoThread` where a thread can't be started: no more connections are accepted, and those that run
/// are ended by their clients first. `ImageFailed` where a write or a sync of the file failed: the
/// command in which a write failed and all later ones get no reply, nor does one that waits for a
/// sync, and all connections are closed at once. `OutputFailed` where a line could not be written.
pub fn run_serve<R, K>(rt: &R, image: &str, asked: Asked<'_>, writer: &mut K) -> Result<(), Fault>
where
    R: Host,
    R::File: ImageFile + Send + Sync,
    K: Sink,
    requires { IsPlace asked.place × IsConns asked.conns }
    ensures tells { TellsServing asked.entry.place asked.entry.conns asked.entry.record
        (K.written writer.old) (K.faults writer.old) result
        (K.written writer.new) (K.faults writer.new) }
    ensures endless { IsFalse asked.entry.ends → IsErr result }
{
    let listener = match listen_at(rt, asked.place) {
        Ok(listener) => listener,
        Err(fault) => return Err(fault),
    };
    let done = serve_image(rt, listener, image, asked, writer);
    if let Place::Unix(path) = asked.place {
        let _ = fs::remove_file(rt, path);
    }
    done
}

/// Serves the chip in the file at a path to the connections of a listener. The file's lock is taken
/// before anything of it is read, and nobody else has it until serving has ended.
fn serve_image<R, K>(
    rt: &R,
    listener: Listener,
    image: &str,
    asked: Asked<'_>,
    writer: &mut K,
) -> Result<(), Fault>
where
    R: Host,
    R::File: ImageFile + Send + Sync,
    K: Sink,
    requires { IsPlace asked.place × IsConns asked.conns }
    ensures tells { TellsServing asked.entry.place asked.entry.conns asked.entry.record
        (K.written writer.old) (K.faults writer.old) result
        (K.written writer.new) (K.faults writer.new) }
    ensures endless { IsFalse asked.entry.ends → IsErr result }
{
    if asked.read_only {
        return serve_copy(rt, listener, image, asked, writer);
    }
    let held = hold_image(rt, image, true)?;
    let syncs = asked.sync != SyncPolicy::Never;
    settle(rt, image, &held, syncs)?;
    let done = serve_held(rt, listener, image, &held, asked, writer);
    if take_up(rt, image, &held, syncs).is_err() {
        rt.tell_unsettled(image);
    }
    done
}

/// Serves the chip in a file that is held, the log beside which says nothing.
fn serve_held<R, K>(
    rt: &R,
    listener: Listener,
    image: &str,
    held: &Held<R::File>,
    asked: Asked<'_>,
    writer: &mut K,
) -> Result<(), Fault>
where
    R: Host,
    R::File: ImageFile + Send + Sync,
    K: Sink,
    requires { IsPlace asked.place × IsConns asked.conns }
    ensures tells { TellsServing asked.entry.place asked.entry.conns asked.entry.record
        (K.written writer.old) (K.faults writer.old) result
        (K.written writer.new) (K.faults writer.new) }
    ensures endless { IsFalse asked.entry.ends → IsErr result }
{
    let bytes = match bytes_of(rt, held) {
        Ok(bytes) => bytes,
        Err(fault) => return Err(fault),
    };
    let Ok(copy) = bytes.as_slice().to_vec(rt.alloc()) else {
        return Err(Fault::NoMemory);
    };
    let wear = match wear_of(asked) {
        Ok(wear) => wear,
        Err(fault) => return Err(fault),
    };
    let disk = match open_disk(rt.alloc(), bytes, asked.tidy, wear, firmness_of(asked.firm)) {
        Ok(disk) => disk,
        Err(fault) => return Err(fault),
    };
    let mut files = match log_beside(rt, image, held, asked.sync != SyncPolicy::Never) {
        Ok(files) => files,
        Err(error) => return Err(told_of_log(error)),
    };
    let sum = match begin_anew(&mut files, copy.as_slice()) {
        Ok(sum) => sum,
        Err(error) => return Err(told_of_log(error)),
    };
    let durable = match files.handle() {
        Ok(handle) => Durable::new(handle, policy_of(asked.sync)),
        Err(error) => return Err(told_of_log(error)),
    };
    let disk = MemoryDisk::new(disk);
    let unlost = Blank::new(1);
    serve_logged::<Brand, _, _, _, _>(
        rt, listener, disk, files, copy, sum, unlost, &durable, asked, writer,
    )
}

/// Serves a disk with the log of its image, which has these bytes on its file; `L` names what is
/// lost.
fn serve_logged<L, R, D, F, K>(
    rt: &R,
    listener: Listener,
    disk: D,
    files: FileImages<R::File>,
    image: Vec<u8>,
    sum: Sum,
    unlost: Blank,
    durable: &Durable<F>,
    asked: Asked<'_>,
    writer: &mut K,
) -> Result<(), Fault>
where
    L: Ledger + Send,
    R: Host,
    R::File: ImageFile + Send + Sync,
    D: ImageDisk + Send + Drop,
    F: OpenFile + Send + Sync + Drop,
    K: Sink,
    requires name { (unlost.name ≡ L.name) × (unlost.parts ≡ L.parts) × (0 < L.parts) }
    requires sound { (D.facts disk).sound ≡ true }
    requires ready { IsDiskReady (D.facts disk) }
    requires size { IsChipSize (length image.items) }
    requires numbers { IsPlace asked.place × IsConns asked.conns }
    ensures tells { TellsServing asked.entry.place asked.entry.conns asked.entry.record
        (K.written writer.old) (K.faults writer.old) result
        (K.written writer.new) (K.faults writer.new) }
    ensures endless { IsFalse asked.entry.ends → IsErr result }
{
    let logged = LoggedDisk::<_, _, L>::new(rt.alloc(), disk, files, image, sum, unlost);
    serve_opened(rt, listener, logged, durable, asked, writer)
}

/// Serves a copy in memory of the chip in the file at a path, of which nothing is ever synced.
fn serve_copy<R, K>(
    rt: &R,
    listener: Listener,
    image: &str,
    asked: Asked<'_>,
    writer: &mut K,
) -> Result<(), Fault>
where
    R: Host,
    R::File: ImageFile + Send + Sync,
    K: Sink,
    requires { IsPlace asked.place × IsConns asked.conns }
    ensures tells { TellsServing asked.entry.place asked.entry.conns asked.entry.record
        (K.written writer.old) (K.faults writer.old) result
        (K.written writer.new) (K.faults writer.new) }
    ensures endless { IsFalse asked.entry.ends → IsErr result }
{
    let held = hold_image(rt, image, false)?;
    let through = looked_through(rt, image, &held)?;
    let disk = match copied_disk(rt.alloc(), through.bytes, Firmness::Steady) {
        Ok(disk) => disk,
        Err(fault) => return Err(fault),
    };
    let durable = match held.handle() {
        Ok(file) => Durable::new(file, Policy::Never),
        Err(error) => return Err(Fault::ImageFailed(Cause::System(error.kind()))),
    };
    serve_opened(rt, listener, disk, &durable, asked, writer)
}

/// Whose replies wait for a sync.
fn policy_of(sync: SyncPolicy) -> Policy
    ensures { result ≡ policy_of sync }
{
    match sync {
        SyncPolicy::AtFlush => Policy::AtFlush,
        SyncPolicy::Never => Policy::Never,
        SyncPolicy::Always => Policy::Always,
    }
}

/// Serves a sound disk.
pub(crate) fn serve_opened<R, D, F, K>(
    rt: &R,
    listener: Listener,
    disk: D,
    durable: &Durable<F>,
    asked: Asked<'_>,
    writer: &mut K,
) -> Result<(), Fault>
where
    R: Host,
    D: Disk + Send + Drop,
    F: OpenFile + Send + Sync + Drop,
    K: Sink,
    requires sound { (D.facts disk).sound ≡ true }
    requires ready { IsDiskReady (D.facts disk) }
    requires numbers { IsPlace asked.place × IsConns asked.conns }
    ensures tells { TellsServing asked.entry.place asked.entry.conns asked.entry.record
        (K.written writer.old) (K.faults writer.old) result
        (K.written writer.new) (K.faults writer.new) }
    ensures endless { IsFalse asked.entry.ends → IsErr result }
{
    let export = Export {
        sectors: disk.sectors(),
        told_len: asked.told_len,
        max_len: asked.max_len,
        read_only: asked.read_only,
    };
    let unnamed = Unnamed {
        blank: Blank::new(LEDGER_PARTS),
        opened: Opened::new(rt),
    };
    serve_disk::<Brand, _, _, _, _>(rt, listener, disk, durable, export, unnamed, asked, writer)
}

/// What a server's name is for, before it has one: the ledger of its counts, and its history.
#[derive(Drop)]
struct Unnamed {
    blank: Blank,
    opened: Opened<Row>,
}

/// The disk on a chip in memory of these bytes: it holds what they represent.
fn open_disk(
    alloc: Global,
    image: Vec<u8>,
    tidy: TidyPolicy,
    wear: Option<Arc<Wear, Global>>,
    firmness: Firmness,
) -> Result<FlashDisk<CountedBus<PromptChip>, Brand>, Fault>
    requires size { IsChipSize (length image.items) }
    ensures refused { IfErr result IsRefusal }
    ensures reason { IfErr result (λ e. IsReason e image.items) }
    ensures sound { IfOk result (λ disk.
        (⟦<FlashDisk<CountedBus<PromptChip>, Brand> as Disk>⟧.facts disk).sound ≡ true) }
    ensures ready { IfOk result (λ disk.
        IsDiskReady (⟦<FlashDisk<CountedBus<PromptChip>, Brand> as Disk>⟧.facts disk)) }
    ensures from { IfOk result (λ disk. OpenedFrom image.items
        (⟦<FlashDisk<CountedBus<PromptChip>, Brand> as Disk>⟧.facts disk)) }
    ensures groups { IfOk result (λ _. HasCleanGroups image.items) }
{
    let Ok(copy) = image.as_slice().to_vec(alloc) else {
        return Err(Fault::NoMemory);
    };
    let Ok(chip) = PromptChip::new(image) else {
        unreachable!()
    };
    open_bus(alloc, chip, copy, tidy, wear, firmness)
}

/// The disk on the chip behind a bus, on which nothing is in progress and whose memory is this
/// copy, with what is assumed of its torn bits: from now on its blocks wear alike, its erases are
/// counted where that is asked, and it is tidied as is asked. The copy is looked at first: of a
/// chip that isn't served nothing is changed.
pub(crate) fn open_bus<B: SpiBus + Drop>(
    alloc: Global,
    bus: B,
    copy: Vec<u8>,
    tidy: TidyPolicy,
    wear: Option<Arc<Wear, Global>>,
    firmness: Firmness,
) -> Result<FlashDisk<CountedBus<B>, Brand>, Fault>
    requires idle { is_idle (B.chip bus).operation ≡ true }
    requires copy { copy.items ≡ (B.chip bus).memory }
    requires size { IsChipSize (length copy.items) }
    ensures refused { IfErr result IsRefusal }
    ensures reason { IfErr result (λ e. IsReason e (B.chip bus).memory) }
    ensures sound { IfOk result (λ disk.
        (⟦<FlashDisk<CountedBus<B>, Brand> as Disk>⟧.facts disk).sound ≡ true) }
    ensures ready { IfOk result (λ disk.
        IsDiskReady (⟦<FlashDisk<CountedBus<B>, Brand> as Disk>⟧.facts disk)) }
    ensures from { IfOk result (λ disk. OpenedFrom (B.chip bus).memory
        (⟦<FlashDisk<CountedBus<B>, Brand> as Disk>⟧.facts disk)) }
    ensures groups { IfOk result (λ _. HasCleanGroups (B.chip bus).memory) }
{
    let blocks = (copy.len() / BLOCK_LEN as usize) as u32;
    copied_disk(alloc, copy, Firmness::Steady)?;
    let mut disk = look_at::<_, Brand>(alloc, CountedBus::new(bus, wear, blocks), firmness)?;
    spare(&mut disk, tidy);
    Ok(disk)
}

/// From now on blocks are chosen so that all wear alike, and tidied as is asked. The disk is sound
/// and ready as it was, with the same contents.
pub(crate) fn spare<B: SpiBus, P: Provenance>(disk: &mut FlashDisk<B, P>, tidy: TidyPolicy)
    ensures sound { (⟦<FlashDisk<B, P> as Disk>⟧.facts disk.new).sound
        ≡ (⟦<FlashDisk<B, P> as Disk>⟧.facts disk.old).sound }
    ensures contents { (⟦<FlashDisk<B, P> as Disk>⟧.facts disk.new).contents
        ≡ (⟦<FlashDisk<B, P> as Disk>⟧.facts disk.old).contents }
    ensures ready { IsDiskReady (⟦<FlashDisk<B, P> as Disk>⟧.facts disk.old)
        → IsDiskReady (⟦<FlashDisk<B, P> as Disk>⟧.facts disk.new) }
    ensures quiet { IsQuiet (⟦<FlashDisk<B, P> as Disk>⟧.facts disk.old)
        (⟦<FlashDisk<B, P> as Disk>⟧.facts disk.new) }
{
    disk.level_wear();
    match tidy {
        TidyPolicy::Lazily => disk.tidy_lazily(),
        TidyPolicy::Eagerly => {}
    }
}

/// The disk on the chip behind a bus, on which nothing is in progress, with what is assumed of its
/// torn bits. Its data blocks are read once whole: the disk is sound, and holds what the chip's
/// memory, which is healthy, represents.
pub(crate) fn look_at<B: SpiBus + Drop, P: Provenance>(
    alloc: Global,
    bus: B,
    firmness: Firmness,
) -> Result<FlashDisk<B, P>, Fault>
    requires idle { is_idle (B.chip bus).operation ≡ true }
    requires unknown { P.sound ≡ false }
    requires counted { P.slows ≤ B.slows bus }
    requires firmly { P.firm ≡ true
        → BeginsOn P.cuts P.slows firmness (B.chip bus) (B.cuts bus) (B.slows bus) }
    ensures refused { IfErr result IsRefusal }
    ensures reason { IfErr result (λ e. IsReason e (B.chip bus).memory) }
    ensures sound { IfOk result (λ disk.
        (⟦<FlashDisk<B, P> as Disk>⟧.facts disk).sound ≡ true) }
    ensures ready { IfOk result (λ disk.
        IsDiskReady (⟦<FlashDisk<B, P> as Disk>⟧.facts disk)) }
    ensures from { IfOk result (λ disk. OpenedFrom (B.chip bus).memory
        (⟦<FlashDisk<B, P> as Disk>⟧.facts disk)) }
    ensures counts { IfOk result (λ disk.
        ((⟦<FlashDisk<B, P> as Disk>⟧.facts disk).cuts ≡ B.cuts bus)
        × ((⟦<FlashDisk<B, P> as Disk>⟧.facts disk).slows ≡ B.slows bus)) }
{
    let mut disk = match FlashDisk::<B, P>::mount_as(alloc, bus, firmness) {
        Ok(disk) => disk,
        Err((_, error)) => return Err(told_of_mount(error)),
    };
    match disk.check() {
        Ok(true) => Ok(disk),
        Ok(false) => Err(Fault::NotClean),
        Err(DiskError::Cut) => Err(Fault::ImageFailed(Cause::Write)),
        Err(DiskError::Slow) => Err(Fault::Slow),
    }
}

/// Serves this export of a disk; `L` names its server.
fn serve_disk<L, R, D, F, K>(
    rt: &R,
    listener: Listener,
    disk: D,
    durable: &Durable<F>,
    export: Export,
    unnamed: Unnamed,
    asked: Asked<'_>,
    writer: &mut K,
) -> Result<(), Fault>
where
    L: OneServer + Send + Sync,
    R: Host,
    D: Disk + Send + Drop,
    F: OpenFile + Send + Sync + Drop,
    K: Sink,
    requires size { length (D.facts disk).contents ≡ 512 * export.sectors }
    requires export { export ≡ L.export }
    requires sound { ((D.facts disk).sound ≡ true) × (L.sound ≡ true) }
    requires ready { IsDiskReady (D.facts disk) }
    requires base { L.base ≡ (D.facts disk).contents }
    requires name { unnamed.blank.name ≡ L.name }
    requires parts { (unnamed.blank.parts ≡ L.parts) × (unnamed.blank.parts ≡ 65537) }
    requires history { unnamed.opened ≡ L.book }
    requires numbers { IsPlace asked.place × IsConns asked.conns }
    ensures tells { TellsServing asked.entry.place asked.entry.conns asked.entry.record
        (K.written writer.old) (K.faults writer.old) result
        (K.written writer.new) (K.faults writer.new) }
    ensures endless { IsFalse asked.entry.ends → IsErr result }
{
    let Unnamed { blank, opened } = unnamed;
    let (keeper, hands) = opened.named::<L>();
    if !asked.record {
        let shared = Shared::<D, NoRecord, L>::new(disk, export, blank);
        let chronicle = Chronicle::new(shared, keeper);
        return serve_shared(
            rt,
            listener,
            chronicle,
            durable,
            hands,
            export.sectors,
            asked,
            writer,
        );
    }
    match Shared::<D, FullRecord, L>::recording(rt.alloc(), disk, export, blank) {
        Ok(shared) => {
            let chronicle = Chronicle::new(shared, keeper);
            serve_shared(
                rt,
                listener,
                chronicle,
                durable,
                hands,
                export.sectors,
                asked,
                writer,
            )
        }
        Err((error, _)) => Err(told_of_record(error)),
    }
}

/// Serves a server with its history.
fn serve_shared<L, R, D, C, F, K>(
    rt: &R,
    listener: Listener,
    chronicle: Chronicle<D, C, L>,
    durable: &Durable<F>,
    hands: Hands<Row, L>,
    sectors: u32,
    asked: Asked<'_>,
    writer: &mut K,
) -> Result<(), Fault>
where
    L: OneServer + Send + Sync,
    R: Host,
    D: Disk + Send + Drop,
    C: Recorder + Send + Drop,
    F: OpenFile + Send + Sync + Drop,
    K: Sink,
    requires numbers { IsPlace asked.place × IsConns asked.conns }
    ensures tells { TellsServing asked.entry.place asked.entry.conns C.KEEPS
        (K.written writer.old) (K.faults writer.old) result
        (K.written writer.new) (K.faults writer.new) }
    ensures endless { IsFalse asked.entry.ends → IsErr result }
{
    let alloc = rt.alloc();
    let Ok(gates) = vec![in alloc; OpenGate; asked.conns as usize] else {
        return Err(Fault::NoMemory);
    };
    let limit = Duration::from_secs(NEGOTIATION_SECONDS);
    let Ok(connections) = Connections::new(alloc, gates, hands, in_all(asked), limit) else {
        return Err(Fault::NoMemory);
    };
    let connections = connections.telling(asked.verbose);
    let server = Server::new(chronicle);
    let first = serving_text(alloc, sectors, asked.place);
    if let Err(fault) = tell(writer, first) {
        return Err(fault);
    }
    let resting = Watching::new(rt, durable, asked.image, !asked.read_only);
    let status = match status_of(asked, sectors) {
        Ok(status) => status,
        Err(fault) => return Err(fault),
    };
    let served = match serve(
        rt,
        alloc,
        &server,
        durable,
        listener,
        connections,
        resting,
        status,
    ) {
        Ok(served) => served,
        Err(fault) => {
            let _ = durable.finish();
            return Err(told_of_serving(fault));
        }
    };
    if let Err(fault) = finish(durable) {
        return Err(fault);
    }
    let mut shared = server.into_inner().into_shared();
    let Some(rows) = shared.total(served.passes) else {
        return Err(Fault::NoThread);
    };
    let last = ended_text(alloc, asked.conns, C::KEEPS, rows);
    tell(writer, last)
}

/// Where the server of so many sectors says what it does, if that is asked.
fn status_of(asked: Asked<'_>, sectors: u32) -> Result<Option<StatusSocket>, Fault>
    ensures { IfErr result (λ e. (e ≡ Fault.NoMemory) ⊎ (e ≡ Fault.NoSocket Cause.Accept)) }
{
    let Some(look) = asked.status else {
        return Ok(None);
    };
    let Ok(wear) = Arc::try_clone(&look.wear) else {
        return Err(Fault::NoMemory);
    };
    match look.listener.try_clone() {
        Ok(listener) => Ok(Some(StatusSocket {
            listener,
            wear,
            sectors,
            read_only: asked.read_only,
        })),
        Err(_) => Err(Fault::NoSocket(Cause::Accept)),
    }
}

/// The last sync.
fn finish<F: OpenFile>(durable: &Durable<F>) -> Result<(), Fault>
    ensures { IfErr result (λ e. e ≡ Fault.ImageFailed Cause.Sync) }
{
    if durable.finish() {
        return Ok(());
    }
    Err(Fault::ImageFailed(Cause::Sync))
}

/// How many connections are served in all, where there is an end.
fn in_all(asked: Asked<'_>) -> Option<u32>
    ensures { result ≡ if asked.entry.ends then Some asked.entry.conns else None }
{
    if asked.ends { Some(asked.conns) } else { None }
}

/// Writes a text.
pub(crate) fn tell<K: Sink>(writer: &mut K, text: Result<String, AllocError>) -> Result<(), Fault>
    ensures { WritesText text (K.written writer.old) (K.faults writer.old) result
        (K.written writer.new) (K.faults writer.new) }
{
    let Ok(text) = text else {
        return Err(Fault::NoMemory);
    };
    match send(writer, text.as_bytes()) {
        Ok(()) => Ok(()),
        Err(_) => Err(Fault::OutputFailed),
    }
}

/// Whether an IP address is one of IPv6.
fn has_colon(ip: &str) -> bool
    ensures { result ≡ has_colon ip.now }
{
    ip.as_bytes().contains(&b':')
}

/// The line before the first connection is accepted.
fn serving_text(alloc: Global, sectors: u32, place: Place<'_>) -> Result<String, AllocError>
    ensures { IfOk result (λ text. string_bytes text ≡ serving_text sectors place.entry) }
{
    match place {
        Place::Port { port, bind } => match bind {
            None => format!(in alloc; "serving {sectors} sectors on 127.0.0.1:{port}\n"),
            Some(ip) => if has_colon(ip) {
                format!(in alloc; "serving {sectors} sectors on [{ip}]:{port}\n")
            } else {
                format!(in alloc; "serving {sectors} sectors on {ip}:{port}\n")
            },
        },
        Place::Unix(path) => format!(in alloc; "serving {sectors} sectors on {path}\n"),
    }
}

/// The lines after the last connection has ended.
fn ended_text(alloc: Global, conns: u32, record: bool, rows: u64) -> Result<String, AllocError>
    ensures { IfOk result (λ text. string_bytes text ≡ ended_text «record» conns rows) }
{
    if record {
        format!(in alloc; "served {conns} connections\nrecorded {rows} rows\n")
    } else {
        format!(in alloc; "served {conns} connections\n")
    }
}

/// What a refusal of an image's file, of so many bytes, is for the program.
pub(crate) fn told_of_file(length: u64, error: SimError) -> Fault
    ensures { result ≡ told_of_file length error }
{
    match error {
        SimError::BadSize => Fault::BadImageSize(length),
        SimError::OutOfMemory => Fault::NoMemory,
        SimError::File => Fault::ImageFailed(Cause::Read),
    }
}

/// What one of a mount is.
pub(crate) fn told_of_mount(error: MountError) -> Fault
    ensures { result ≡ told_of_mount error }
{
    match error {
        MountError::Probe(error) => told_of_probe(error),
        MountError::OutOfMemory => Fault::NoMemory,
        MountError::NotFormatted => Fault::NotFormatted,
        MountError::Corrupt => Fault::Corrupt,
    }
}

/// What one of a server's record is.
fn told_of_record(error: RecordError) -> Fault
    ensures { result ≡ told_of_record error }
{
    match error {
        RecordError::Cut => Fault::ImageFailed(Cause::Write),
        RecordError::Slow => Fault::Slow,
        RecordError::OutOfMemory => Fault::NoMemory,
    }
}

/// What a fault of serving is.
fn told_of_serving(fault: ServeFault) -> Fault
    ensures { result ≡ told_of_serving fault }
{
    match fault {
        ServeFault::NoMemory => Fault::NoMemory,
        ServeFault::NoSocket => Fault::NoSocket(Cause::Accept),
        ServeFault::NoThread => Fault::NoThread,
        ServeFault::Lost => Fault::ImageFailed(Cause::Write),
        ServeFault::Unsynced => Fault::ImageFailed(Cause::Sync),
    }
}
