//! Scans a device over a link for its chain of SunSpec models.
ghost use Rattle.std.specs.Prelude.{◌≡◌, ℕ, ◌≤◌, ◌+◌, ◌*◌, [], Err, Some, IfOk, IfSome, OnOk, length};
ghost use Rattle.mb_wire.specs.Spans.{span_view};
ghost use Rattle.mb_wire.specs.Links.{risen};
ghost use Rattle.sun_chain.specs.Image.{word_in};
ghost use Rattle.sun_chain.specs.Scanning.Lines.{Garbles, OnlyInquires, has_failed, is_gone};
ghost use Rattle.sun_chain.specs.Scanning.Answers.{words_seen};
ghost use Rattle.sun_chain.specs.Scanning.Stages.{stage_after, wanted};
ghost use Rattle.sun_chain.specs.Scanning.Scans.{Scans, append_answer, stage_of, words_of};
ghost use Rattle.sun_chain.specs.declared.scans.hearing.TheConstants.{MOST_TAKES};

use crate::scans::client::Client;
use crate::scans::fault::ScanFault;
use crate::scans::hearing::Answer;
use crate::scans::scan::Scan;
use crate::{Image, Model};
use mb_wire::{Link, ReadSpan};
use std::alloc::{AllocError, Global};

/// The maximum number of reads of a scan. Three are for the `SunS` mark, 65 for the IDs and lengths
/// of models, and one for the end's ID. The other reads are for the registers of 64 models.
pub const MOST_READS: u64 = 657;

/// An observer that receives each model that a scan is about to read, to display the progress.
pub trait ScanObserver {
    fn reads(&mut self, model: Model);
}

fn show<W: ScanObserver>(scan: &Scan, observer: &mut W) {
    if let Some(model) = scan.model() {
        observer.reads(model);
    }
}

fn take_in(scan: &mut Scan, span: ReadSpan, answer: Answer) -> Result<(), AllocError>
    requires next { wanted (stage_of scan.old) ≡ Some (span_view span) }
    requires all { IfSome answer (λ words. length words.items ≡ span.count) }
    ensures words { OnOk result ((address : ℕ) → words_of scan.new address
        ≡ append_answer (words_of scan.old) span.address (words_seen answer) address) }
    ensures stage { OnOk result
        (stage_of scan.new ≡ stage_after (words_of scan.new) (stage_of scan.old)) }
{
    match answer {
        Some(words) => scan.answered(span, &words),
        None => {
            scan.unread();
            Ok(())
        }
    }
}

/// Scans a unit over a new link to a device: the `SunS` mark, the ID and length of each model, and
/// the registers of known models. A read that returns no words is retried once. The returned memory
/// image has exactly the words of the responses.
pub fn scan_over<L: Link, W: ScanObserver>(
    alloc: Global,
    link: &mut L,
    unit: u8,
    observer: &mut W,
) -> Result<Image, ScanFault>
    ensures scanned { IfOk result (λ image. Scans unit (L.remaining link.old) (L.given link.old)
        (L.remaining link.new) (L.given link.new) (word_in image)) }
    ensures asks { OnlyInquires unit result (L.given link.old) (L.given link.new) }
    ensures garbled { result ≡ Err ScanFault.Garbled
        → Garbles (L.remaining link.old) (L.remaining link.new) [] }
    ensures failures { L.failed link.new ≡ risen (has_failed result) (L.failed link.old) }
    ensures ends { L.ended link.new ≡ risen (is_gone result) (L.ended link.old) }
    ensures takes { L.taken link.new ≤ L.taken link.old + 2 * MOST_TAKES * MOST_READS }
{
    let mut scan = Scan::new(alloc);
    let mut client = Client::new(unit);
    while let Some(span) = scan.next() {
        show(&scan, observer);
        match client.read(alloc, link, span) {
            Ok(answer) => match take_in(&mut scan, span, answer) {
                Ok(()) => {}
                Err(_) => return Err(ScanFault::Memory),
            },
            Err(fault) => return Err(fault),
        }
    }
    Ok(scan.into_image())
}
