// The calls on correction bytes, each under the name of its field on the page of demands.
ghost use Rattle.std.specs.Prelude.{Err};
ghost use Rattle.answers.specs.Outcome.{leaving};
ghost use Rattle.demands.specs.Rules.{Judged, JudgedLent};
ghost use Rattle.demands.specs.CorrectionLadders as rule;

use answers::Refusal;
use frame::Format;

fn writing_a_correction(f: Format, s: &[u8], d: &mut [u8]) -> Result<usize, Refusal>
    ensures { JudgedLent Err d.old (rule.write_rule f s.now d.old)
        (leaving result d.new) }
{
    correction::write(f, s, d)
}

fn check_bytes_alone(word: &[u8], d: &mut [u8]) -> Result<usize, Refusal>
    ensures { JudgedLent Err d.old (rule.check_bytes_rule word.now d.old)
        (leaving result d.new) }
{
    correction::check_bytes(word, d)
}

fn reading_the_header(s: &[u8]) -> Result<(), Refusal>
    ensures { Judged Err (rule.announce_rule s.now) result }
{
    correction::announced(s)
}
