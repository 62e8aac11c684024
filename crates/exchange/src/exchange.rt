// A mail sent by two composers and read back by two readers.
ghost use Rattle.std.specs.Prelude.{◌≡◌, ℕ, [], vec_len};
ghost use Rattle.fault.specs.Answers.{told, via};
ghost use Rattle.fault.specs.Kinds.{layer_fault};
ghost use Rattle.orders.specs.Behind.{Behind};
ghost use Rattle.history.specs.History.{Reached};
ghost use Rattle.composer.specs.Composers.{means_of, new_means};
ghost use Rattle.reader.specs.Reading.{new_reading};
ghost use Rattle.reader.specs.Readers.{reading_of};
ghost use Rattle.exchange.specs.Exchanged.{dotted, exchange_orders, Wrote, Written, Exchanged, HandedBack};
ghost use Rattle.exchange.specs.Piles.{dot_means, undo_means, undotted};
ghost use Rattle.exchange.specs.ReadSo.{ReadSo};

use crate::answers::Answers;
use crate::mail::Mail;
use crate::reading_back::read_mail;
use crate::sending::send_mail;
use composer::composer::Composer;
use conversation::promise::promise;
use dot::dot::Dot;
use dot::undot::DotUndo;
use ends::memory::MemoryEnd;
use fault::layer_fault::LayerFault;
use reader::reader::Reader;
use sink::byte_sink::ByteSink;
use taker::paragraph_taker::ParagraphTaker;
use undo::pair::Pair;
use undo::plain::Plain;

// A composer through the dot stage into memory.
type Writer = Composer<Dot<MemoryEnd>>;

// How many bytes a piece has: of the text, for each composer, and of the wire bytes, for each reader.
#[derive(Clone, Copy, Debug, PartialEq, Eq)]
pub struct Cuts {
    pub text: usize,
    pub text_again: usize,
    pub wire: usize,
    pub wire_again: usize,
}

// A new composer, with no steps yet.
fn begin<S: ByteSink>(below: S, width: u32) -> Composer<S>
    ensures begun { Reached (new_means width (S.ByteSink.means below)) [] (means_of S.ByteSink.means result) }
    ensures below { result.below ≡ below }
{
    Composer::new(below, width)
}

fn new_writer(memory: Vec<u8>, width: u32) -> Writer
    ensures begun { Reached (new_means width (dot_means result.below)) [] (means_of dot_means result) }
    ensures below { dot_means result.below ≡ dotted memory }
    ensures memory { result.below.below.holder.memory ≡ memory }
{
    begin(Dot::new(MemoryEnd::new(memory)), width)
}

// An end while nothing is open, which is refused and leaves all as it was; and then a mail.
fn write<T: ParagraphTaker>(taker: &mut T, mail: Mail, cut: usize) -> Answers<T::TakerFault>
    ensures wrote { Wrote (T.ParagraphTaker.means taker.old) (T.ParagraphTaker.means taker.new) (exchange_orders mail.entry.text.now mail.entry.records.now) (via T.TakerFault.Refusal.means result.refused) (told T.TakerFault.Refusal.means result.finish) }
    ensures kept { T.ParagraphTaker.keeps taker.old taker.new }
{
    let _ = taker.end(0);
    send_mail(taker, mail, cut)
}

// A reader of what goes down here.
fn reader_of<T: ParagraphTaker>(writer: &Writer, taker: T) -> Reader<Pair<Plain, DotUndo>, T>
    ensures taker { result.delivery.taker ≡ taker }
    ensures reads { reading_of undo_means T.ParagraphTaker.means result ≡ new_reading undotted (T.ParagraphTaker.means taker) }
{
    Reader::new(writer.below().undoing(), taker)
}

// Two composers, two readers, and what they were answered.
#[derive(Drop)]
pub struct Outcome<T, W> {
    pub first: Writer,
    pub second: Writer,
    pub reader: Reader<Pair<Plain, DotUndo>, T>,
    pub again: Reader<Pair<Plain, DotUndo>, W>,
    pub sent: Answers<LayerFault>,
    pub sent_again: Answers<LayerFault>,
    pub read: Answers<LayerFault>,
    pub read_again: Answers<LayerFault>,
}

// A mail through two composers of one width, its text cut at different places, and what the first sent through two
// readers, in different chunks, each to a taker of its own; also where some of it is refused. Where both memories are of
// one size, all that is promised over whole runs holds of it.
pub fn exchange<T: ParagraphTaker, W: ParagraphTaker>(
    memory: Vec<u8>,
    twin: Vec<u8>,
    width: u32,
    mail: Mail,
    cuts: Cuts,
    taker: T,
    other: W,
) -> Outcome<T, W>
    ensures sent { Written width (dotted memory) (means_of dot_means result.first) (exchange_orders mail.entry.text.now mail.entry.records.now) (via layer_fault result.sent.refused) (told layer_fault result.sent.finish) }
    ensures sent_again { Written width (dotted twin) (means_of dot_means result.second) (exchange_orders mail.entry.text.now mail.entry.records.now) (via layer_fault result.sent_again.refused) (told layer_fault result.sent_again.finish) }
    ensures memory { Behind (means_of dot_means result.first).foot memory.items result.first.below.below.holder.memory.items }
    ensures twin { Behind (means_of dot_means result.second).foot twin.items result.second.below.below.holder.memory.items }
    ensures read { ReadSo (new_reading undotted (T.ParagraphTaker.means taker)) (reading_of undo_means T.ParagraphTaker.means result.reader) (means_of dot_means result.first).foot (via layer_fault result.read.refused) (told layer_fault result.read.finish) }
    ensures read_again { ReadSo (new_reading undotted (W.ParagraphTaker.means other)) (reading_of undo_means W.ParagraphTaker.means result.again) (means_of dot_means result.first).foot (via layer_fault result.read_again.refused) (told layer_fault result.read_again.finish) }
    ensures kept { T.ParagraphTaker.keeps taker result.reader.delivery.taker }
    ensures kept_again { W.ParagraphTaker.keeps other result.again.delivery.taker }
    ensures promised { vec_len memory ≡ vec_len twin → Exchanged width (dotted memory) (dotted twin) (exchange_orders mail.entry.text.now mail.entry.records.now) (means_of dot_means result.first) (means_of dot_means result.second) (via layer_fault result.sent.refused) (via layer_fault result.sent_again.refused) (told layer_fault result.sent.finish) (told layer_fault result.sent_again.finish) (HandedBack (T.ParagraphTaker.means taker) (T.ParagraphTaker.lawful taker) (told layer_fault result.read.finish) (reading_of undo_means T.ParagraphTaker.means result.reader)) (HandedBack (W.ParagraphTaker.means other) (W.ParagraphTaker.lawful other) (told layer_fault result.read_again.finish) (reading_of undo_means W.ParagraphTaker.means result.again)) }
{
    let mut first = new_writer(memory, width);
    let mut second = new_writer(twin, width);
    let mut reader = reader_of(&first, taker);
    let mut again = reader_of(&first, other);
    let sent = write(&mut first, mail, cuts.text);
    let sent_again = write(&mut second, mail, cuts.text_again);
    let wire = first.below().below().bytes();
    let read = read_mail(&mut reader, wire, cuts.wire);
    let read_again = read_mail(&mut again, wire, cuts.wire_again);
    promise(&first, &second, &reader, &again);
    Outcome {
        first,
        second,
        reader,
        again,
        sent,
        sent_again,
        read,
        read_again,
    }
}
