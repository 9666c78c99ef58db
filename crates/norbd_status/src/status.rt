//! What a server has done, as a line of JSON and as a page.

ghost use Rattle.std.specs.Prelude.{◌≡◌, ◌++◌, IfOk, OnOk, string_bytes};
ghost use Rattle.std.specs.Fmt.{decimal};
ghost use Rattle.norbd_status.specs.Status.{begun_line, begun_page, commands_text};
ghost use Rattle.norbd_status.specs.Status.{commands_words, extremes_text, extremes_words};
ghost use Rattle.norbd_status.specs.Status.{flag_text, mode_words, seconds_text};
ghost use Rattle.norbd_status.specs.Status.{seconds_words, status_line, status_page, worn_text};

use crate::wear::{Extremes, Worn};
use std::alloc::{AllocError, Global};

/// How many commands were run, in all and of each kind. Source: NBD proto.md for the kinds.
#[derive(Clone, Copy, Debug, PartialEq, Eq)]
pub struct Commands {
    pub all: u64,
    pub read: u64,
    pub write: u64,
    pub trim: u64,
    pub write_zeroes: u64,
    pub flush: u64,
}

/// What a server has done since it began: how many sectors its disk has, and whether they can be
/// changed; for how many seconds it has served, where there is a clock; how many connections there
/// are now and were in all; the commands that were run; how many replies said an error; how often
/// blocks of the chip were erased, and the data blocks with the most and the fewest erases, where
/// they are counted.
#[derive(Clone, Copy, Debug, PartialEq, Eq)]
pub struct Status {
    pub sectors: u32,
    pub read_only: bool,
    pub seconds: Option<u64>,
    pub connections: u64,
    pub all_connections: u64,
    pub commands: Commands,
    pub errors: u64,
    pub erases: u64,
    pub worn: Option<Extremes>,
}

/// Adds a key and a number.
fn push(text: &mut String, key: &str, number: u64) -> Result<(), AllocError>
    ensures { OnOk result (string_bytes text.new
        ≡ string_bytes text.old ++ key.now ++ decimal number) }
{
    let digits = format!(in *text.allocator(); "{number}")?;
    push_text(text, key, digits.as_str())
}

/// Adds a key and a text.
fn push_text(text: &mut String, key: &str, value: &str) -> Result<(), AllocError>
    ensures { OnOk result (string_bytes text.new
        ≡ string_bytes text.old ++ key.now ++ value.now) }
{
    text.push_str(key)?;
    text.push_str(value)
}

/// A truth value of JSON.
fn flag_text(flag: bool) -> &'static str
    ensures { result.now ≡ flag_text flag }
{
    if flag { "true" } else { "false" }
}

/// A number of seconds, or null.
fn seconds_text(alloc: Global, seconds: Option<u64>) -> Result<String, AllocError>
    ensures { IfOk result (λ text. string_bytes text ≡ seconds_text seconds) }
{
    match seconds {
        Some(seconds) => format!(in alloc; "{seconds}"),
        None => String::from_str(alloc, "null"),
    }
}

/// A block and its erases.
fn worn_text(alloc: Global, worn: Worn) -> Result<String, AllocError>
    ensures { IfOk result (λ text. string_bytes text ≡ worn_text worn) }
{
    let mut text = String::new(alloc);
    push(&mut text, "{\"block\":", worn.block as u64)?;
    push(&mut text, ",\"erases\":", worn.erases)?;
    text.push_str("}")?;
    Ok(text)
}

/// The blocks with the most and the fewest erases, or null.
fn extremes_text(alloc: Global, worn: Option<Extremes>) -> Result<String, AllocError>
    ensures { IfOk result (λ text. string_bytes text ≡ extremes_text worn) }
{
    let Some(worn) = worn else {
        return String::from_str(alloc, "\"most_worn\":null,\"least_worn\":null");
    };
    let most = worn_text(alloc, worn.most)?;
    let least = worn_text(alloc, worn.least)?;
    let mut text = String::new(alloc);
    push_text(&mut text, "\"most_worn\":", most.as_str())?;
    push_text(&mut text, ",\"least_worn\":", least.as_str())?;
    Ok(text)
}

/// Commands in all and by kind.
fn commands_text(alloc: Global, commands: Commands) -> Result<String, AllocError>
    ensures { IfOk result (λ text. string_bytes text ≡ commands_text commands) }
{
    let mut text = String::new(alloc);
    push(&mut text, "{\"all\":", commands.all)?;
    push(&mut text, ",\"read\":", commands.read)?;
    push(&mut text, ",\"write\":", commands.write)?;
    push(&mut text, ",\"trim\":", commands.trim)?;
    push(&mut text, ",\"write_zeroes\":", commands.write_zeroes)?;
    push(&mut text, ",\"flush\":", commands.flush)?;
    text.push_str("}")?;
    Ok(text)
}

/// The beginning of the line: the disk, and who is served.
fn begun_line(alloc: Global, status: &Status) -> Result<String, AllocError>
    ensures { IfOk result (λ text. string_bytes text ≡ begun_line status.now) }
{
    let seconds = seconds_text(alloc, status.seconds)?;
    let mut text = String::new(alloc);
    push(
        &mut text,
        "{\"version\":1,\"sectors\":",
        status.sectors as u64,
    )?;
    push_text(&mut text, ",\"read_only\":", flag_text(status.read_only))?;
    push_text(&mut text, ",\"seconds\":", seconds.as_str())?;
    push(&mut text, ",\"connections\":{\"now\":", status.connections)?;
    push(&mut text, ",\"all\":", status.all_connections)?;
    Ok(text)
}

/// The line of JSON, with the end of the line. Err: there was no memory.
pub fn line_of(alloc: Global, status: &Status) -> Result<String, AllocError>
    ensures { IfOk result (λ text. string_bytes text ≡ status_line status.now) }
{
    let commands = commands_text(alloc, status.commands)?;
    let worn = extremes_text(alloc, status.worn)?;
    let mut text = begun_line(alloc, status)?;
    push_text(&mut text, "},\"commands\":", commands.as_str())?;
    push(&mut text, ",\"errors\":", status.errors)?;
    push(&mut text, ",\"erases\":", status.erases)?;
    push_text(&mut text, ",", worn.as_str())?;
    text.push_str("}\n")?;
    Ok(text)
}

/// Whether the disk can be changed, in words.
fn mode_words(read_only: bool) -> &'static str
    ensures { result.now ≡ mode_words read_only }
{
    if read_only { ", read-only" } else { "" }
}

/// For how long it has been served, in words.
fn seconds_words(alloc: Global, seconds: Option<u64>) -> Result<String, AllocError>
    ensures { IfOk result (λ text. string_bytes text ≡ seconds_words seconds) }
{
    let Some(seconds) = seconds else {
        return String::from_str(alloc, "\n");
    };
    let mut text = String::new(alloc);
    push(&mut text, ", served for ", seconds)?;
    text.push_str(" seconds\n")?;
    Ok(text)
}

/// The line about commands.
fn commands_words(alloc: Global, commands: Commands) -> Result<String, AllocError>
    ensures { IfOk result (λ text. string_bytes text ≡ commands_words commands) }
{
    let mut text = String::new(alloc);
    push(&mut text, "commands: ", commands.all)?;
    push(&mut text, " in all; READ ", commands.read)?;
    push(&mut text, ", WRITE ", commands.write)?;
    push(&mut text, ", TRIM ", commands.trim)?;
    push(&mut text, ", WRITE_ZEROES ", commands.write_zeroes)?;
    push(&mut text, ", FLUSH ", commands.flush)?;
    text.push_str("\n")?;
    Ok(text)
}

/// The blocks with the most and the fewest erases, in words.
fn extremes_words(alloc: Global, worn: Option<Extremes>) -> Result<String, AllocError>
    ensures { IfOk result (λ text. string_bytes text ≡ extremes_words worn) }
{
    let Some(worn) = worn else {
        return String::from_str(alloc, "\n");
    };
    let mut text = String::new(alloc);
    push(&mut text, "; most of block ", worn.most.block as u64)?;
    push(&mut text, ", ", worn.most.erases)?;
    push(&mut text, "; fewest of block ", worn.least.block as u64)?;
    push(&mut text, ", ", worn.least.erases)?;
    text.push_str("\n")?;
    Ok(text)
}

/// The beginning of the page: the disk, and who is served.
fn begun_page(alloc: Global, status: &Status) -> Result<String, AllocError>
    ensures { IfOk result (λ text. string_bytes text ≡ begun_page status.now) }
{
    let seconds = seconds_words(alloc, status.seconds)?;
    let mut text = String::new(alloc);
    push(&mut text, "sectors: ", status.sectors as u64)?;
    push_text(&mut text, "", mode_words(status.read_only))?;
    push_text(&mut text, "", seconds.as_str())?;
    push(&mut text, "connections: ", status.connections)?;
    push(&mut text, " now, ", status.all_connections)?;
    Ok(text)
}

/// The page for a person. Err: there was no memory.
pub fn page_of(alloc: Global, status: &Status) -> Result<String, AllocError>
    ensures { IfOk result (λ text. string_bytes text ≡ status_page status.now) }
{
    let commands = commands_words(alloc, status.commands)?;
    let worn = extremes_words(alloc, status.worn)?;
    let mut text = begun_page(alloc, status)?;
    push_text(&mut text, " in all\n", commands.as_str())?;
    push(&mut text, "errors: ", status.errors)?;
    push(&mut text, "\nerases: ", status.erases)?;
    push_text(&mut text, "", worn.as_str())?;
    Ok(text)
}
