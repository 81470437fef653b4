//! Why nothing is answered, and the line that says so.
ghost use Rattle.std.specs.Prelude.{◌≡◌, ◌++◌, IfOk, string_bytes};
ghost use Rattle.gal_io.specs.Lines.{line_end};
ghost use Rattle.gallium_cli.specs.declared.refusal.Refusal.{Refusal};
ghost use Rattle.gallium_cli.specs.declared.refusal.Excess.{Excess};
ghost use Rattle.gallium_cli.specs.Lines.{status_of, line_of, what_text, kind_text};
ghost use Rattle.gallium_cli.specs.Lines.{source_text, class_line, chain_line, amount_text, composing_line};
ghost use Rattle.gallium_cli.specs.Lines.{source_line, limits_line, excess_line, split_line, lines_line, owner_text};
ghost use Rattle.gallium_cli.specs.Lines.{pcap_line, audit_line, report_line};
ghost use Rattle.gallium_cli.specs.Causes.{IsTold};

use crate::status::Status;
use chain_compose::{ComposeError, What as ChainWhat};
use chain_text::ChainTextError;
use element_lang::What;
use element_text::TextError;
use gal_io::{NoMemory, Sink, SinkEnd, Text};
use pcap_trace::PcapError;
use resource_limits::{LimitName, LimitsError};
use run_audit::AuditError;
use run_text::{LineKind, LinesError};
use std::alloc::Global;

/// A limit that a split exceeds.
#[derive(Drop)]
pub struct Excess {
    pub limit: LimitName,
    /// The name of the object, where the limit is for each object.
    pub object: Option<Text>,
    pub have: u64,
    pub allowed: u64,
}

/// Why the text of a split isn't taken.
#[derive(Clone, Copy, PartialEq, Eq)]
pub enum SplitFault {
    /// The first line with which no split text of the program goes on, counted from 1, or the number of lines and one
    /// more.
    Line(usize),
    /// The lowest of the nine rules that the split breaks, from 1, and the first instruction that breaks it, from 0.
    Rule { rule: u8, instruction: u32 },
}

/// Why a report isn't true.
#[derive(Drop)]
pub struct Untruth {
    /// The cause, which isn't want of memory.
    pub error: AuditError,
    /// The name of the object, where the cause is one.
    pub object: Option<Text>,
}

/// Why a chain isn't composed.
#[derive(Drop)]
pub struct Uncomposed {
    /// The cause, which isn't want of memory.
    pub error: ComposeError,
    /// The name of the element, where one is to blame.
    pub element: Option<Text>,
}

/// Why nothing is answered. A name is that of the file that is to blame.
#[derive(Drop)]
pub enum Refusal<'a> {
    /// The words have no known form.
    Usage,
    /// The source is refused, for this cause, which isn't want of memory.
    Source(TextError),
    /// The flat program of the source has more than 4,096 instructions.
    LongProgram,
    /// The limits are refused, for this cause, which isn't want of memory.
    Limits(LimitsError),
    /// The split exceeds a limit.
    Exceeded(Excess),
    /// The text of a split is refused, or its split isn't legal.
    Split(SplitFault),
    /// The trace is refused, for this cause, which isn't want of memory.
    Trace(LinesError),
    /// The schedule is refused, for this cause, which isn't want of memory.
    Schedule(LinesError),
    /// The file of this name has more bytes than its size allows.
    TooLong(&'a str),
    /// The file of this name can't be read.
    ReadFault(&'a str),
    /// The answer can't be written.
    WriteFault,
    /// The switch failed.
    SwitchFault,
    /// No memory was found.
    NoMemory,
    /// The capture is refused, for this cause, which isn't want of memory.
    Pcap(PcapError),
    /// The report is refused for its form: the first line with which no report goes on, counted from 1, or the number
    /// of lines and one more.
    Report(usize),
    /// The report isn't true.
    Audit(Untruth),
    /// The text of a chain is refused, for this cause, which isn't want of memory.
    Chain(ChainTextError),
    /// The source of a class is refused, for this cause, which isn't want of memory.
    ClassSource(TextError, Text),
    /// The file of a class has more bytes than its size allows.
    ClassTooLong(Text),
    /// The file of a class can't be read.
    ClassReadFault(Text),
    /// The chain isn't composed.
    Uncomposed(Uncomposed),
}

impl From<NoMemory> for Refusal<'_> {
    ghost use Rattle.std.specs.Prelude.{◌≡◌};
    ghost use Rattle.gallium_cli.specs.declared.refusal.Refusal.TheVariants as refusals;

    ghost from_gives = { λ _ refusal. refusal ≡ refusals.NoMemory };

    fn from(_: NoMemory) -> Self {
        Refusal::NoMemory
    }
}

// The status of a refusal whose line was written.
fn status(refusal: &Refusal<'_>) -> Status
    ensures { result ≡ status_of refusal.now }
{
    match refusal {
        Refusal::Usage => Status::Usage,
        Refusal::Source(_) | Refusal::LongProgram => Status::Source,
        Refusal::Limits(_) => Status::Limits,
        Refusal::Exceeded(_) => Status::Exceeded,
        Refusal::Split(_) => Status::Split,
        Refusal::Trace(_) => Status::Trace,
        Refusal::Schedule(_) => Status::Schedule,
        Refusal::TooLong(_) => Status::TooLong,
        Refusal::ReadFault(_) => Status::ReadFault,
        Refusal::WriteFault => Status::WriteFault,
        Refusal::SwitchFault => Status::SwitchFault,
        Refusal::NoMemory => Status::NoMemory,
        Refusal::Pcap(_) => Status::Pcap,
        Refusal::Report(_) => Status::Report,
        Refusal::Audit(_) => Status::Audit,
        Refusal::Chain(_) | Refusal::Uncomposed(_) => Status::Chain,
        Refusal::ClassSource(_, _) => Status::Source,
        Refusal::ClassTooLong(_) => Status::TooLong,
        Refusal::ClassReadFault(_) => Status::ReadFault,
    }
}

// A line that ends in a name.
fn naming(alloc: Global, what: &[u8], name: &[u8]) -> Result<Text, NoMemory>
    ensures { IfOk result (λ text. text ≡ what.now ++ (name.now ++ line_end)) }
{
    let mut text = Text::from_slice(alloc, what)?;
    text.extend(name)?;
    text.extend(b"\n")?;
    Ok(text)
}

// What there is too much of in a source, in a word.
fn what_name(what: What) -> &'static str
    ensures { result.now ≡ what_text what }
{
    match what {
        What::Depth => "depth",
        What::Objects => "objects",
        What::Entries => "entries",
        What::Writes => "writes",
    }
}

// A line as a text.
fn told(alloc: Global, line: String) -> Result<Text, NoMemory>
    ensures { IfOk result (λ text. text ≡ string_bytes line) }
{
    Text::from_slice(alloc, line.as_bytes())
}

// What is wrong with a source that is refused.
fn source_text(alloc: Global, fault: TextError) -> Result<Text, NoMemory>
    ensures { IfOk result (λ text. text ≡ source_text fault) }
{
    match fault {
        TextError::NotUtf8(at) => told(alloc, format!(in alloc; "source: not utf-8 at {at}")?),
        TextError::Token(at) => told(alloc, format!(in alloc; "source: token at {at}")?),
        TextError::Syntax(at) => told(alloc, format!(in alloc; "source: syntax at {at}")?),
        TextError::Rule { rule, offset } => {
            told(alloc, format!(in alloc; "source: rule {rule} at {offset}")?)
        }
        TextError::TooLarge {
            what,
            have,
            allowed,
        } => {
            let what = what_name(what);
            told(
                alloc,
                format!(in alloc; "source: {what} have {have}, allowed {allowed}")?,
            )
        }
        TextError::NoMemory => Text::from_slice(alloc, b"no memory"),
    }
}

// The line of a source that is refused.
fn source_line(alloc: Global, fault: TextError) -> Result<Text, NoMemory>
    ensures { IfOk result (λ text. text ≡ source_line fault) }
{
    let mut text = source_text(alloc, fault)?;
    text.extend(b"\n")?;
    Ok(text)
}

// The line of the source of a class, which is in the file of this name.
fn class_line(alloc: Global, fault: TextError, name: &[u8]) -> Result<Text, NoMemory>
    ensures { IfOk result (λ text. text ≡ class_line fault name.now) }
{
    let mut text = source_text(alloc, fault)?;
    text.extend(b" in ")?;
    text.extend(name)?;
    text.extend(b"\n")?;
    Ok(text)
}

// The line of limits that are refused.
fn limits_line(alloc: Global, fault: LimitsError) -> Result<Text, NoMemory>
    ensures { IfOk result (λ text. text ≡ limits_line fault) }
{
    match fault {
        LimitsError::Toml => Text::from_slice(alloc, b"limits: not toml\n"),
        LimitsError::Missing(key) => naming(alloc, b"limits: missing ", key.name().as_bytes()),
        LimitsError::Unknown => Text::from_slice(alloc, b"limits: unknown key\n"),
        LimitsError::Range(key) => naming(alloc, b"limits: range ", key.name().as_bytes()),
        LimitsError::NoMemory => Text::from_slice(alloc, b"no memory\n"),
    }
}

// A space and the name of an object, if there is one.
fn owner_text(alloc: Global, object: &Option<Text>) -> Result<Text, NoMemory>
    ensures { IfOk result (λ text. text ≡ owner_text object.now) }
{
    let mut text = Text::new(alloc);
    if let Some(name) = object {
        text.push(b' ')?;
        text.extend(name.as_slice())?;
    }
    Ok(text)
}

// The line of a limit that is exceeded.
fn excess_line(alloc: Global, excess: &Excess) -> Result<Text, NoMemory>
    ensures { IfOk result (λ text. text ≡ excess_line excess.now) }
{
    let mut text = Text::from_slice(alloc, b"limit ")?;
    text.extend(excess.limit.name().as_bytes())?;
    text.extend(owner_text(alloc, &excess.object)?.as_slice())?;
    text.extend(b": have ")?;
    text.push_number(excess.have)?;
    text.extend(b", allowed ")?;
    text.push_number(excess.allowed)?;
    text.extend(b"\n")?;
    Ok(text)
}

// The line of a split text that is refused.
fn split_line(alloc: Global, fault: SplitFault) -> Result<Text, NoMemory>
    ensures { IfOk result (λ text. text ≡ split_line fault) }
{
    match fault {
        SplitFault::Line(number) => told(alloc, format!(in alloc; "split: line {number}\n")?),
        SplitFault::Rule { rule, instruction } => {
            told(
                alloc,
                format!(in alloc; "split: rule {rule} at {instruction}\n")?,
            )
        }
    }
}

// What is wrong with a line, in a word.
fn kind_name(kind: LineKind) -> &'static str
    ensures { result.now ≡ kind_text kind }
{
    match kind {
        LineKind::Form => "form",
        LineKind::Number => "number",
        LineKind::Hex => "hex",
        LineKind::Long => "long",
        LineKind::AfterDrain => "after-drain",
    }
}

// The line of a text of lines that is refused: of which kind of file, and what there may be too many of.
fn lines_line(alloc: Global, file: &str, values: &str, fault: LinesError) -> Result<Text, NoMemory>
    ensures { IfOk result (λ text. text ≡ lines_line file.now values.now fault) }
{
    match fault {
        LinesError::Line { number, kind } => {
            let kind = kind_name(kind);
            told(alloc, format!(in alloc; "{file}: line {number} {kind}\n")?)
        }
        LinesError::TooMany { have, allowed } => told(
            alloc,
            format!(in alloc; "{file}: {values} have {have}, allowed {allowed}\n")?,
        ),
        LinesError::NoMemory => Text::from_slice(alloc, b"no memory\n"),
    }
}

// The line of a capture that is refused.
fn pcap_line(alloc: Global, fault: PcapError) -> Result<Text, NoMemory>
    ensures { IfOk result (λ text. text ≡ pcap_line fault) }
{
    match fault {
        PcapError::Header => Text::from_slice(alloc, b"pcap: header at 0\n"),
        PcapError::Link => Text::from_slice(alloc, b"pcap: link at 20\n"),
        PcapError::Long(at) => told(alloc, format!(in alloc; "pcap: long at {at}\n")?),
        PcapError::Record(at) => told(alloc, format!(in alloc; "pcap: record at {at}\n")?),
        PcapError::TooMany(have) => told(
            alloc,
            format!(in alloc; "pcap: packets have {have}, allowed 16384\n")?,
        ),
        PcapError::NoMemory => Text::from_slice(alloc, b"no memory\n"),
    }
}

// The line of a text that is no report.
fn report_line(alloc: Global, number: usize) -> Result<Text, NoMemory>
    ensures { IfOk result (λ text. text ≡ report_line number) }
{
    told(alloc, format!(in alloc; "report: line {number}\n")?)
}

// The line of a report that isn't true.
fn audit_line(alloc: Global, untruth: &Untruth) -> Result<Text, NoMemory>
    ensures { IfOk result (λ text. text ≡ audit_line untruth.now) }
{
    match untruth.error {
        AuditError::Counts => Text::from_slice(alloc, b"audit: counts\n"),
        AuditError::Order(number) => told(alloc, format!(in alloc; "audit: order {number}\n")?),
        AuditError::Time(number) => told(alloc, format!(in alloc; "audit: time {number}\n")?),
        AuditError::Verdict(number) => {
            told(alloc, format!(in alloc; "audit: verdict {number}\n")?)
        }
        AuditError::Object(_) => owner_line(alloc, b"audit: object", &untruth.object),
        AuditError::NoMemory => Text::from_slice(alloc, b"no memory\n"),
    }
}

// The line of a text that is no chain.
fn chain_line(alloc: Global, fault: ChainTextError) -> Result<Text, NoMemory>
    ensures { IfOk result (λ text. text ≡ chain_line fault) }
{
    match fault {
        ChainTextError::Syntax(at) => told(alloc, format!(in alloc; "chain: syntax at {at}\n")?),
        ChainTextError::Elements(have) => told(
            alloc,
            format!(in alloc; "chain: elements have {have}, allowed 32\n")?,
        ),
        ChainTextError::Statement(number) => {
            told(alloc, format!(in alloc; "chain: statement {number}\n")?)
        }
        ChainTextError::Empty => Text::from_slice(alloc, b"chain: empty\n"),
        ChainTextError::Cycle => Text::from_slice(alloc, b"chain: cycle\n"),
        ChainTextError::NoMemory => Text::from_slice(alloc, b"no memory\n"),
    }
}

// What there is too much of in a chain, in a word.
fn amount_name(what: ChainWhat) -> &'static str
    ensures { result.now ≡ amount_text what }
{
    match what {
        ChainWhat::Objects => "objects",
        ChainWhat::Entries => "entries",
        ChainWhat::Writes => "writes",
        ChainWhat::Depth => "depth",
        ChainWhat::Bytes => "bytes",
    }
}

// A line that ends in a name, where there is one.
fn owner_line(alloc: Global, what: &[u8], owner: &Option<Text>) -> Result<Text, NoMemory>
    ensures { IfOk result (λ text. text ≡ what.now ++ (owner_text owner.now ++ line_end)) }
{
    let mut text = Text::from_slice(alloc, what)?;
    text.extend(owner_text(alloc, owner)?.as_slice())?;
    text.extend(b"\n")?;
    Ok(text)
}

// The line of a chain that isn't composed.
fn composing_line(alloc: Global, uncomposed: &Uncomposed) -> Result<Text, NoMemory>
    ensures { IfOk result (λ text. text ≡ composing_line uncomposed.now) }
{
    match uncomposed.error {
        ComposeError::Byte(_) => owner_line(alloc, b"chain: byte", &uncomposed.element),
        ComposeError::Repeat(_) => owner_line(alloc, b"chain: repeat", &uncomposed.element),
        ComposeError::Statements => {
            Text::from_slice(alloc, b"chain: more than 65536 statements\n")
        }
        ComposeError::TooLarge {
            what,
            have,
            allowed,
        } => {
            let what = amount_name(what);
            told(
                alloc,
                format!(in alloc; "chain: {what} have {have}, allowed {allowed}\n")?,
            )
        }
        ComposeError::NoMemory => Text::from_slice(alloc, b"no memory\n"),
    }
}

// The line of a refusal.
fn line(alloc: Global, refusal: &Refusal<'_>) -> Result<Text, NoMemory>
    ensures { IfOk result (λ text. text ≡ line_of refusal.now) }
{
    match refusal {
        Refusal::Usage => Text::from_slice(
            alloc,
            b"usage: gallium run, compile, check, replay or gen\n",
        ),
        Refusal::Source(fault) => source_line(alloc, *fault),
        Refusal::LongProgram => Text::from_slice(alloc, b"source: more than 4096 instructions\n"),
        Refusal::Limits(fault) => limits_line(alloc, *fault),
        Refusal::Exceeded(excess) => excess_line(alloc, excess),
        Refusal::Split(fault) => split_line(alloc, *fault),
        Refusal::Trace(fault) => lines_line(alloc, "trace", "packets", *fault),
        Refusal::Schedule(fault) => lines_line(alloc, "schedule", "events", *fault),
        Refusal::TooLong(name) => naming(alloc, b"too long: ", name.as_bytes()),
        Refusal::ReadFault(name) => naming(alloc, b"read fault: ", name.as_bytes()),
        Refusal::WriteFault => Text::from_slice(alloc, b"write fault\n"),
        Refusal::SwitchFault => Text::from_slice(alloc, b"switch fault\n"),
        Refusal::NoMemory => Text::from_slice(alloc, b"no memory\n"),
        Refusal::Pcap(fault) => pcap_line(alloc, *fault),
        Refusal::Report(number) => report_line(alloc, *number),
        Refusal::Audit(untruth) => audit_line(alloc, untruth),
        Refusal::Chain(fault) => chain_line(alloc, *fault),
        Refusal::ClassSource(fault, name) => class_line(alloc, *fault, name.as_slice()),
        Refusal::ClassTooLong(name) => naming(alloc, b"too long: ", name.as_slice()),
        Refusal::ClassReadFault(name) => naming(alloc, b"read fault: ", name.as_slice()),
        Refusal::Uncomposed(told) => composing_line(alloc, told),
    }
}

/// Writes the line of a refusal, and says with which status the program then ends.
pub fn tell<E: Sink>(alloc: Global, refusal: Refusal<'_>, err: &mut E) -> Status
    ensures { IsTold refusal.entry result (E.seen err.old) (E.seen err.new) }
{
    let Ok(text) = line(alloc, &refusal) else {
        return Status::NoMemory;
    };
    match err.write(text.as_slice()) {
        SinkEnd::Done => status(&refusal),
        SinkEnd::Failed => Status::WriteFault,
        SinkEnd::NoMemory => Status::NoMemory,
    }
}
