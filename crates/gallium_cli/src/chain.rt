//! Chains of elements as one source.
ghost use Rattle.std.specs.Prelude.{◌≡◌, ◌≤◌, ◌<◌, ◌+◌, ◌^◌, ◌⊎◌, ◌++◌, ◌∷◌, [], ℕ, List, IsTrue, Some, IfOk, IfErr};
ghost use Rattle.std.specs.Prelude.{IfSome, OnOk, MatchOption, length, take, map, string_bytes};
ghost use Rattle.std.specs.List.{All};
ghost use Rattle.element_lang.specs.Accepted.{HasNames};
ghost use Rattle.element_lang.specs.Rules.{is_good};
ghost use Rattle.element_lang.specs.Tree.{Tree};
ghost use Rattle.element_lang.specs.View.{tree};
ghost use Rattle.element_chain.specs.declared.chain.Chain.{Chain as ChainTold};
ghost use Rattle.chain_text.specs.Reads.{IsChainText, IsComposable};
ghost use Rattle.chain_compose.specs.Refusals.{IsRefused, IsUnrefused};
ghost use Rattle.switch_ir.specs.Port.{PortState};
ghost use Rattle.gallium_cli.specs.Words.{Chain as ChainOf};
ghost use Rattle.gallium_cli.specs.Call.{work_of};
ghost use Rattle.gallium_cli.specs.Lines.{status_of};
ghost use Rattle.gallium_cli.specs.Roles.{source, wiring, size_of, IsOnlySource};
ghost use Rattle.gallium_cli.specs.Loads.{LeavesFiles, IsUnread, raised_by};
ghost use Rattle.gallium_cli.specs.Chains.{AreClasses, IsPlaceOf, MayReadNext, ReadsNext, class_files, class_refusal, file_of};
ghost use Rattle.gallium_cli.specs.Chains.{IsClassRefused, IsFirstClassRefused, IsNextRefused, IsUncomposed, IsOneSource};
ghost use Rattle.gallium_cli.specs.Chains.{connected, element_of};
ghost use Rattle.gallium_cli.specs.Causes.{HasEnded, reads_after};

use crate::formats::SourceFormat;
use crate::load::{Format, MAX_TEXT, load};
use crate::output::put;
use crate::refusal::{Refusal, Uncomposed};
use crate::status::Status;
use chain_compose::{ComposeError, compose};
use chain_text::{ChainTextError, read_chain};
use element_chain::{Chain, Classes, Element};
use element_lang::Middlebox;
use element_print::print;
use gal_io::{Files, NoMemory, Sink, Text};
use std::alloc::Global;

/// The elements of a chain and the wires between them.
pub struct ChainFormat;

// The chain of a text.
fn read(alloc: Global, text: &[u8]) -> Result<Chain, Refusal<'static>>
    ensures ok { IfOk result (IsChainText text.now) }
    ensures composable { IfOk result IsComposable }
    ensures err { IfErr result (λ refusal. IsUnread refusal wiring text.now) }
{
    match read_chain(alloc, text) {
        Ok(chain) => Ok(chain),
        Err(ChainTextError::NoMemory) => Err(Refusal::NoMemory),
        Err(fault) => Err(Refusal::Chain(fault)),
    }
}

impl Format for ChainFormat {
    type Value = Chain;

    ghost role = { λ _. wiring };

    ghost spells = { λ _ text chain. IsChainText text chain };

    ghost sound = { λ _ chain. IsComposable chain };

    ghost ready = { λ _. Unit {0} };

    fn size(&self) -> usize {
        MAX_TEXT
    }

    fn read(&self, alloc: Global, text: &[u8]) -> Result<Chain, Refusal<'static>> {
        read(alloc, text)
    }
}

// The name of the file of a class. Classes have names of ASCII, so each of them is text.
fn file_of(alloc: Global, class: &[u8]) -> Result<String, NoMemory>
    ensures { IfOk result (λ file. string_bytes file ≡ file_of class.now) }
{
    let Ok(class) = str::from_utf8(class) else {
        return Err(NoMemory);
    };
    Ok(format!(in alloc; "{class}.gal")?)
}

// The refusal of the file of a class, of this name.
fn of_class(refusal: Refusal<'_>, name: Text) -> Refusal<'static>
    ensures { result ≡ class_refusal refusal.entry name }
{
    match refusal {
        Refusal::Source(fault) => Refusal::ClassSource(fault, name),
        Refusal::TooLong(_) => Refusal::ClassTooLong(name),
        Refusal::ReadFault(_) => Refusal::ClassReadFault(name),
        _ => Refusal::NoMemory,
    }
}

// The middlebox that the file of a class spells.
fn load_class<F: Files>(
    alloc: Global,
    class: &[u8],
    files: &mut F,
) -> Result<Middlebox, Refusal<'static>>
    ensures ok { IfOk result (λ m. IfSome ((F.seen files.old).told (file_of class.now))
        (λ text. (length text ≤ size_of source) × IsOnlySource text (tree m))) }
    ensures good { IfOk result (λ m. IsTrue (is_good (tree m))) }
    ensures names { IfOk result (λ m. HasNames (tree m)) }
    ensures err { IfErr result (λ refusal. IsClassRefused refusal (file_of class.now)
        (F.seen files.old) (F.seen files.new)) }
    ensures stays { OnOk result (LeavesFiles Status.Done (F.seen files.old) (F.seen files.new)) }
    ensures fault { IfErr result (λ refusal.
        LeavesFiles (status_of refusal) (F.seen files.old) (F.seen files.new)) }
    ensures read { OnOk result ((F.seen files.new).reads ≡ raised_by 1 (F.seen files.old).reads) }
    ensures few_reads { ((F.seen files.new).reads ≡ (F.seen files.old).reads)
        ⊎ ((F.seen files.new).reads ≡ raised_by 1 (F.seen files.old).reads) }
{
    let Ok(file) = file_of(alloc, class) else {
        return Err(Refusal::NoMemory);
    };
    let Ok(name) = Text::from_slice(alloc, file.as_bytes()) else {
        return Err(Refusal::NoMemory);
    };
    match load(alloc, files, &SourceFormat, file.as_str()) {
        Ok(middlebox) => Ok(middlebox),
        Err(refusal) => Err(of_class(refusal, name)),
    }
}

// The place of the first of these elements that is of this class.
fn place_of(elements: &[Element], class: &[u8]) -> Option<usize>
    ensures { MatchOption result ((e : ℕ) → IsPlaceOf elements.now class.now e → ⊥)
        (λ place. IsPlaceOf elements.now class.now place) }
{
    for (place, element) in elements.iter().enumerate() {
        if element.class.as_slice() == class {
            return Some(place);
        }
    }
    None
}

// The middlebox of one more element behind those whose middleboxes are there: that of an element of the same class, or
// that of the file of its class.
fn next_class<F: Files>(
    alloc: Global,
    elements: &[Element],
    known: &[Middlebox],
    files: &mut F,
) -> Result<Middlebox, Refusal<'static>>
    requires next { length known.now < length elements.now }
    requires known { AreClasses (F.seen files.old).told (take (length known.now) elements.now) (map tree known.now) }
    requires good { All (λ m. IsTrue (is_good (tree m))) known.now }
    requires names { All (λ m. HasNames (tree m)) known.now }
    ensures ok { IfOk result (λ m. AreClasses (F.seen files.old).told (take (length known.now + 1) elements.now)
        (map tree known.now ++ tree m ∷ [])) }
    ensures good { IfOk result (λ m. IsTrue (is_good (tree m))) }
    ensures names { IfOk result (λ m. HasNames (tree m)) }
    ensures err { IfErr result (λ refusal. IsNextRefused refusal (class_files (take (length known.now) elements.now))
        (class_files (take (length known.now + 1) elements.now)) (F.seen files.old) (F.seen files.new)) }
    ensures stays { OnOk result (LeavesFiles Status.Done (F.seen files.old) (F.seen files.new)) }
    ensures fault { IfErr result (λ refusal.
        LeavesFiles (status_of refusal) (F.seen files.old) (F.seen files.new)) }
    ensures read { OnOk result (ReadsNext (class_files (take (length known.now) elements.now))
        (class_files (take (length known.now + 1) elements.now)) (F.seen files.old).reads (F.seen files.new).reads) }
    ensures few_reads { MayReadNext (class_files (take (length known.now) elements.now))
        (class_files (take (length known.now + 1) elements.now)) (F.seen files.old).reads (F.seen files.new).reads }
{
    let class = elements[known.len()].class.as_slice();
    match place_of(&elements[..known.len()], class) {
        Some(place) => match known[place].copy(alloc) {
            Ok(middlebox) => Ok(middlebox),
            Err(_) => Err(Refusal::NoMemory),
        },
        None => load_class(alloc, class, files),
    }
}

// The middleboxes of elements. The file of each class is read once, where the first element of it stands.
fn load_classes<F: Files>(
    alloc: Global,
    elements: &[Element],
    files: &mut F,
) -> Result<Classes, Refusal<'static>>
    requires { (F.seen files.old).reads < 2 ^ 64 }
    ensures ok { IfOk result (λ ms. AreClasses (F.seen files.old).told elements.now (map tree ms.items)) }
    ensures good { IfOk result (λ ms. All (λ m. IsTrue (is_good (tree m))) ms.items) }
    ensures names { IfOk result (λ ms. All (λ m. HasNames (tree m)) ms.items) }
    ensures err { IfErr result (λ refusal. IsFirstClassRefused refusal (class_files elements.now)
        (F.seen files.old) (F.seen files.new)) }
    ensures stays { OnOk result (LeavesFiles Status.Done (F.seen files.old) (F.seen files.new)) }
    ensures fault { IfErr result (λ refusal.
        LeavesFiles (status_of refusal) (F.seen files.old) (F.seen files.new)) }
    ensures read { OnOk result ((F.seen files.new).reads
        ≡ reads_after (class_files elements.now) (F.seen files.old).reads) }
    ensures few_reads { (F.seen files.new).reads
        ≤ reads_after (class_files elements.now) (F.seen files.old).reads }
{
    let mut classes = Vec::new(alloc);
    while classes.len() < elements.len() {
        let middlebox = match next_class(alloc, elements, &classes, files) {
            Ok(middlebox) => middlebox,
            Err(refusal) => return Err(refusal),
        };
        if classes.push(middlebox).is_err() {
            return Err(Refusal::NoMemory);
        }
    }
    Ok(classes)
}

// The name of the element that stands in the way, where one does.
fn blamed(
    alloc: Global,
    elements: &[Element],
    error: ComposeError,
) -> Result<Option<Text>, NoMemory>
    ensures { IfOk result (λ name. name ≡ element_of elements.now error) }
{
    let number = match error {
        ComposeError::Byte(number) | ComposeError::Repeat(number) => number,
        _ => return Ok(None),
    };
    match elements.get(number as usize) {
        Some(element) => Ok(Some(Text::from_slice(alloc, element.name.as_slice())?)),
        None => Ok(None),
    }
}

// What is told where a chain isn't composed.
fn told(alloc: Global, elements: &[Element], error: ComposeError) -> Refusal<'static>
    ensures { (chain : ChainTold) (ms : List Tree) → chain.elements ≡ elements.now
        → IsRefused (connected chain ms) error → IsUncomposed result chain ms }
{
    match error {
        ComposeError::NoMemory => Refusal::NoMemory,
        _ => match blamed(alloc, elements, error) {
            Ok(element) => Refusal::Uncomposed(Uncomposed { error, element }),
            Err(_) => Refusal::NoMemory,
        },
    }
}

// The source of a chain of these middleboxes.
fn composed(alloc: Global, chain: &Chain, classes: &Classes) -> Result<Text, Refusal<'static>>
    requires composable { IsComposable chain.now }
    requires count { length classes.now.items ≡ length chain.now.elements }
    requires good { All (λ m. IsTrue (is_good (tree m))) classes.now.items }
    requires names { All (λ m. HasNames (tree m)) classes.now.items }
    ensures ok { IfOk result (IsOneSource (connected chain.now (map tree classes.now.items))) }
    ensures unrefused { OnOk result (IsUnrefused (connected chain.now (map tree classes.now.items))) }
    ensures err { IfErr result (λ refusal. IsUncomposed refusal chain.now (map tree classes.now.items)) }
{
    match compose(alloc, chain, classes) {
        Ok(middlebox) => match print(alloc, &middlebox) {
            Ok(text) => Ok(text),
            Err(_) => Err(Refusal::NoMemory),
        },
        Err(error) => Err(told(alloc, chain.elements.as_slice(), error)),
    }
}

/// Composes the chain that one file tells, of the elements whose classes are spelled by the files of their names, and
/// writes it as one source.
pub fn perform_chain<'a, F: Files, O: Sink>(
    alloc: Global,
    wiring: &'a str,
    files: &mut F,
    out: &mut O,
) -> Result<(), Refusal<'a>>
    ensures { (port : PortState) → HasEnded result (Some (ChainOf wiring.now))
        (work_of (F.seen files.old) (F.seen files.new) port port (O.seen out.old) (O.seen out.new)) }
{
    let chain = load(alloc, files, &ChainFormat, wiring)?;
    let classes = match load_classes(alloc, chain.elements.as_slice(), files) {
        Ok(classes) => classes,
        Err(refusal) => return Err(refusal),
    };
    let text = match composed(alloc, &chain, &classes) {
        Ok(text) => text,
        Err(refusal) => return Err(refusal),
    };
    put(out, text.as_slice())
}
