// The entry points of the crates below, each under the name of its field on the page of demands: the answer
// is a refusal just as the ladder says, and what the ladder accepts exactly where no case of a refusal holds. Where
// memory is lent, a refusal leaves it as it was.
ghost use Rattle.std.specs.Prelude.{Err, Some};
ghost use Rattle.answers.specs.Outcome.{leaving};
ghost use Rattle.line.specs.Codes.{code_of};
ghost use Rattle.chipreader.specs.Steps.{start_of};
ghost use Rattle.frame.specs.declared.Format.{Format};
ghost use Rattle.demands.specs.Rules.{Judged, JudgedLent};
ghost use Rattle.demands.specs.Ladders as rule;

use answers::Refusal;
use chipreader::Place;
use frame::{Format, FormatA, FormatB, Frame, FrameFormat};
use header::Header;
use line::Code;
use radio::Reception;
use sync::{Found, Kind};

fn decoding(code: Code, s: &[u8], start: usize, n: usize, d: &mut [u8]) -> Result<(), Refusal>
    ensures { JudgedLent Err d.old
        (rule.decode_rule (code_of code) s.now start n d.old)
        (leaving result d.new) }
{
    line::decode(code, s, start, n, d)
}

fn encoding(code: Code, s: &[u8], d: &mut [u8]) -> Result<usize, Refusal>
    ensures { JudgedLent Err d.old
        (rule.encode_rule (code_of code) s.now d.old)
        (leaving result d.new) }
{
    line::encode(code, s, d)
}

fn one_word(code: Code, s: &[u8], at: usize) -> Result<u8, Refusal>
    ensures { Judged Err (rule.word_rule (code_of code) s.now at) result }
{
    line::word_at(code, s, at)
}

fn making_a_reader(s: &[u8], at: usize) -> Place
    ensures { Judged (λ why. record { at = 0; answer = Some (Err why) }) (rule.reader_rule s.now at) result }
{
    Place::start(s, at)
}

fn reading_a_word(code: Code, s: &[u8], p: Place) -> Place
    ensures { Judged (λ why. record { at = p.at; answer = Some (Err why) })
        (rule.step_rule (code_of code) s.now p) result }
{
    p.step(code, s)
}

fn first_word(code: Code, s: &[u8], at: usize) -> Place
    ensures { Judged (λ why. record { at = (start_of s.now at).at; answer = Some (Err why) })
        (rule.step_rule (code_of code) s.now (start_of s.now at)) result }
{
    chipreader::first(code, s, at)
}

fn searching(s: &[u8], start: usize, allowance: usize) -> Result<Found, Refusal>
    ensures { Judged Err (rule.search_rule s.now start allowance) result }
{
    sync::search(s, start, allowance)
}

fn sync_tail(s: &[u8], place: usize) -> Result<Kind, Refusal>
    ensures { Judged Err (rule.tail_rule s.now place) result }
{
    sync::tail_at(s, place)
}

fn updating_a_check(check: u16, old: u8, new: u8, distance: usize) -> Result<u16, Refusal>
    ensures { Judged Err (rule.update_rule check old new distance) result }
{
    crc::update(check, old, new, distance)
}

fn frame_size(f: Format, l: u8) -> Result<Frame, Refusal>
    ensures { Judged Err (rule.size_rule f l) result }
{
    f.frame_size(l)
}

fn frame_size_a(l: u8) -> Result<Frame, Refusal>
    ensures { Judged Err (rule.size_rule Format.A l) result }
{
    FormatA::frame_size(l)
}

fn frame_size_b(l: u8) -> Result<Frame, Refusal>
    ensures { Judged Err (rule.size_rule Format.B l) result }
{
    FormatB::frame_size(l)
}

fn judging(f: Format, s: &[u8]) -> Result<Frame, Refusal>
    ensures { Judged Err (rule.judge_rule f s.now) result }
{
    frame::judge(f, s)
}

fn reading(f: Format, s: &[u8], d: &mut [u8]) -> Result<Frame, Refusal>
    ensures { JudgedLent Err d.old (rule.read_rule f s.now d.old)
        (leaving result d.new) }
{
    frame::read(f, s, d)
}

fn writing(f: Format, content: &[u8], d: &mut [u8]) -> Result<usize, Refusal>
    ensures { JudgedLent Err d.old (rule.write_rule f content.now d.old)
        (leaving result d.new) }
{
    frame::write(f, content, d)
}

fn changing_a_byte(f: Format, s: &mut [u8], place: usize, byte: u8) -> Result<Frame, Refusal>
    ensures { JudgedLent Err s.old (rule.change_rule f s.old place byte)
        (leaving result s.new) }
{
    frame::change(f, s, place, byte)
}

fn receiving(s: &[u8], start: usize, allowance: usize, d: &mut [u8]) -> Result<Reception, Refusal>
    ensures { JudgedLent Err d.old
        (rule.receive_rule s.now start allowance d.old)
        (leaving result d.new) }
{
    radio::receive(s, start, allowance, d)
}

fn receiving_manchester(s: &[u8], start: usize, d: &mut [u8]) -> Result<Reception, Refusal>
    ensures { JudgedLent Err d.old (rule.manchester_rule s.now start d.old)
        (leaving result d.new) }
{
    radio::receive_manchester(s, start, d)
}

fn sending(kind: Kind, content: &[u8], d: &mut [u8]) -> Result<usize, Refusal>
    ensures { JudgedLent Err d.old (rule.send_rule kind content.now d.old)
        (leaving result d.new) }
{
    radio::send(kind, content, d)
}

fn reading_a_header(s: &[u8]) -> Result<(Header, usize), Refusal>
    ensures { Judged Err (rule.header_read_rule s.now) result }
{
    header::read(s)
}

fn writing_a_header(h: Header, d: &mut [u8]) -> Result<usize, Refusal>
    ensures { JudgedLent Err d.old (rule.header_write_rule h d.old)
        (leaving result d.new) }
{
    header::write(h, d)
}

fn filtering(entries: [[u8; 8]; 16], count: usize, content: &[u8]) -> Result<bool, Refusal>
    ensures { Judged Err (rule.filter_rule entries count content.now) result }
{
    filter::wanted(entries, count, content)
}
