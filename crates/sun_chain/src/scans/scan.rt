//! Chooses the next read of a scan, and stores the responses in a memory image (the words read from
//! a device).
ghost use Rattle.std.specs.Prelude.{◌≡◌, ◌<◌, ◌≤◌, ◌+◌, ◌-◌, ℕ, length, min, Some, None, IfSome, IsSome, IsTrue, OnOk, OnErr};
ghost use Rattle.std.specs.Option.{option_map};
ghost use Rattle.mb_wire.specs.Spans.{span_view};
ghost use Rattle.sun_chain.specs.Image.{add_words, word_in};
ghost use Rattle.sun_chain.specs.Chain.{next_after};
ghost use Rattle.sun_chain.specs.Scanning.Stages.{begun, ending_at, fits, head_at, holding, in_model, model_in, model_of};
ghost use Rattle.sun_chain.specs.Scanning.Stages.{other_mark, stage_after, wanted};

use crate::scans::known::is_known;
use crate::scans::stage::Stage;
use crate::{Image, Model};
use mb_wire::{ADDRESSES, MAX_READ_REGISTERS, ReadFunction, ReadSpan};
use std::alloc::{AllocError, Global};

/// The ID of the model that ends a chain.
const END_ID: u16 = 0xFFFF;

/// The first base address at which a scan searches for the `SunS` mark.
const FIRST_MARK: u16 = 40000;

/// The maximum number of SunSpec models in the chain that a scan of a device reads.
const MOST_MODELS: u8 = 64;

/// The state of a scan. The caller executes the read that `next` returns and reports the read's
/// result, until `next` returns `None`.
#[derive(Drop)]
pub struct Scan {
    image: Image,
    stage: Stage,
    ghost inside: { IsTrue (fits stage) },
}

impl Scan {
    ghost use Rattle.sun_chain.specs.Scanning.Scans.{stage_of, words_of};

    /// Creates a scan that has not read any words of the device yet.
    pub fn new(alloc: Global) -> Self
        ensures words { (address : ℕ) → words_of result address ≡ None }
        ensures stage { stage_of result ≡ begun }
    {
        Scan {
            image: Image::new(alloc),
            stage: Stage::Mark(FIRST_MARK),
        }
    }

    /// Returns the registers of the scan's next read, or `None` at the end of the scan.
    pub fn next(&self) -> Option<ReadSpan>
        ensures { option_map span_view result ≡ wanted (stage_of self.now) }
    {
        match self.stage {
            Stage::Mark(address) => Some(holding(address, 2)),
            Stage::Head(address, _) => Some(holding(address, head_count(address))),
            Stage::Ending(address) => Some(holding(address, 1)),
            Stage::Registers(model, asked, _) => Some(holding(
                model.address + 2 + asked,
                MAX_READ_REGISTERS.min(model.length - asked),
            )),
            Stage::Over => None,
        }
    }

    /// Returns the model whose registers the scan reads next. Returns `None` if the next read is of
    /// the `SunS` mark or of a model's ID and length, or if the scan is over.
    pub fn model(&self) -> Option<Model>
        ensures { result ≡ model_of (stage_of self.now) }
    {
        match self.stage {
            Stage::Registers(model, _, _) => Some(model),
            _ => None,
        }
    }

    /// Stores the words of a response to the next read. On error, the scan is unchanged and the
    /// same read is next.
    pub fn answered(&mut self, span: ReadSpan, words: &[u16]) -> Result<(), AllocError>
        requires next { wanted (stage_of self.old) ≡ Some (span_view span) }
        requires all { length words.now ≡ span.count }
        ensures words { OnOk result ((at : ℕ)
            → words_of self.new at ≡ add_words (words_of self.old) span.address words.now at) }
        ensures stage { OnOk result
            (stage_of self.new ≡ stage_after (words_of self.new) (stage_of self.old)) }
        ensures err { OnErr result ((address : ℕ)
            → words_of self.new address ≡ words_of self.old address) }
        ensures stays { OnErr result (stage_of self.new ≡ stage_of self.old) }
    {
        match self.image.put(span.address, words) {
            Ok(()) => {
                self.move_on_to_next_read();
                Ok(())
            }
            Err(_) => Err(AllocError),
        }
    }

    /// Records that the device returned no words for the next read of the scan (the search for the
    /// device's SunSpec models). The scan continues without these words.
    pub fn unread(&mut self)
        ensures words { (address : ℕ) → words_of self.new address ≡ words_of self.old address }
        ensures stage { stage_of self.new ≡ stage_after (words_of self.new) (stage_of self.old) }
    {
        self.move_on_to_next_read();
    }

    /// Consumes the scan, and returns the words that the device sent.
    pub fn into_image(self) -> Image
        ensures { word_in result ≡ words_of self }
    {
        self.image
    }

    fn move_on_to_next_read(&mut self)
        ensures words { words_of self.new ≡ words_of self.old }
        ensures stage { stage_of self.new ≡ stage_after (words_of self.old) (stage_of self.old) }
    {
        self.stage = match self.stage {
            Stage::Mark(address) => after_mark(&self.image, address),
            Stage::Head(address, models) => after_head(&self.image, address, models),
            Stage::Registers(model, asked, models) => after_registers(model, asked, models),
            Stage::Ending(_) | Stage::Over => Stage::Over,
        };
    }
}

fn holding(address: u16, count: u16) -> ReadSpan
    requires some { 1 ≤ count }
    requires few { count ≤ MAX_READ_REGISTERS }
    requires inside { address + count ≤ ADDRESSES }
    ensures { span_view result ≡ holding address count }
{
    ReadSpan {
        function: ReadFunction::HoldingRegisters,
        address,
        count,
    }
}

// Returns the number of registers of a model's head (ID and length): 2, or 1 at address 65535.
fn head_count(address: u16) -> u16
    ensures { result ≡ min 2 (ADDRESSES - address) }
{
    if address == u16::MAX { 1 } else { 2 }
}

fn after_mark(image: &Image, address: u16) -> Stage
    requires { address ≤ 50000 }
    ensures stage { result ≡ stage_after (word_in image.now) (Stage.Mark address) }
    ensures inside { IsTrue (fits result) }
{
    if image.word(address) == Some(0x5375) && image.word(address + 1) == Some(0x6E53) {
        Stage::Head(address + 2, 0)
    } else {
        other_mark(address)
    }
}

// Returns the stage of a scan after a base address without the `SunS` mark. The search ends after
// base address 0.
fn other_mark(address: u16) -> Stage
    ensures stage { result ≡ other_mark address }
    ensures inside { IsTrue (fits result) }
{
    if address == 40000 {
        Stage::Mark(50000)
    } else if address == 50000 {
        Stage::Mark(0)
    } else {
        Stage::Over
    }
}

fn after_head(image: &Image, address: u16, models: u8) -> Stage
    requires { models ≤ 64 }
    ensures stage { result ≡ stage_after (word_in image.now) (Stage.Head address models) }
    ensures inside { IsTrue (fits result) }
{
    if image.word(address).is_none() {
        return ending_at(address);
    }
    match model_in(image, address, models) {
        Some(model) => in_model(model, models + 1),
        None => Stage::Over,
    }
}

// Returns the stage of a scan after a read of a model's head (ID and length) returned no words. The
// next read is of the ID alone, because the end of the chain may be the device's last register. At
// address 65535 the scan is over.
fn ending_at(address: u16) -> Stage
    ensures stage { result ≡ ending_at address }
    ensures inside { IsTrue (fits result) }
{
    if address < u16::MAX {
        Stage::Ending(address)
    } else {
        Stage::Over
    }
}

// Returns the valid model at an address, or `None`. A 65th model, the end of the chain, and a model
// that extends past address 65535 are not valid.
fn model_in(image: &Image, address: u16, models: u8) -> Option<Model>
    ensures model { result ≡ model_in (word_in image.now) models address }
    ensures inside { IfSome result (λ model. next_after model ≤ ADDRESSES) }
    ensures few { IsSome result → models < 64 }
{
    let id = image.word(address)?;
    let length = image.word(address.checked_add(1)?)?;
    let model = Model {
        address,
        id,
        length,
    };
    if id != END_ID && models < MOST_MODELS && model.next() <= ADDRESSES {
        Some(model)
    } else {
        None
    }
}

// Returns the stage of a scan after the head (ID and length) of a model was read. The model's
// registers are read only if the program has a table of the points of this model ID.
fn in_model(model: Model, models: u8) -> Stage
    requires inside { next_after model ≤ ADDRESSES }
    requires few { models ≤ 64 }
    ensures stage { result ≡ in_model models model }
    ensures inside { IsTrue (fits result) }
{
    if is_known(model.id) && model.length > 0 {
        Stage::Registers(model, 0, models)
    } else {
        head_at(model.next(), models)
    }
}

fn after_registers(model: Model, asked: u16, models: u8) -> Stage
    requires asked { asked < model.length }
    requires inside { next_after model ≤ ADDRESSES }
    requires few { models ≤ 64 }
    ensures stage { result ≡
        stage_after (λ address. None) (Stage.Registers model asked models) }
    ensures inside { IsTrue (fits result) }
{
    if model.length - asked > MAX_READ_REGISTERS {
        Stage::Registers(model, asked + MAX_READ_REGISTERS, models)
    } else {
        head_at(model.next(), models)
    }
}

fn head_at(address: u32, models: u8) -> Stage
    requires { models ≤ 64 }
    ensures stage { result ≡ head_at models address }
    ensures inside { IsTrue (fits result) }
{
    match u16::try_from(address) {
        Ok(address) => Stage::Head(address, models),
        Err(_) => Stage::Over,
    }
}
