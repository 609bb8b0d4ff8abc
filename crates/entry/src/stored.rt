// The calls of the settings store, each under the name of its field on the page of demands.
ghost use Rattle.std.specs.Prelude.{Err};
ghost use Rattle.answers.specs.Outcome.{leaving};
ghost use Rattle.demands.specs.Rules.{Judged, JudgedLent};
ghost use Rattle.demands.specs.StoreLadders as rule;

use answers::Refusal;
use frame::Format;
use modes::Mode;
use sessions::Meter;

fn making_a_store(s: &mut [u8]) -> Result<usize, Refusal>
    ensures { JudgedLent Err s.old (rule.empty_rule s.old)
        (leaving result s.new) }
{
    store::empty(s)
}

fn adding_a_meter(s: &mut [u8], a: u64, mode: Mode, format: Format) -> Result<usize, Refusal>
    ensures { JudgedLent Err s.old (rule.add_rule a mode format s.old)
        (leaving result s.new) }
{
    store::add(s, a, mode, format)
}

fn adding_by_numbers(s: &mut [u8], a: u64, k: u8, j: u8) -> Result<usize, Refusal>
    ensures { JudgedLent Err s.old (rule.add_by_rule a k j s.old)
        (leaving result s.new) }
{
    store::add_by_number(s, a, k, j)
}

fn hearing_a_number(s: &mut [u8], a: u64, n: u32) -> Result<usize, Refusal>
    ensures { JudgedLent Err s.old (rule.hear_rule a n s.old)
        (leaving result s.new) }
{
    store::hear(s, a, n)
}

fn issuing_a_number(s: &mut [u8], a: u64) -> Result<u32, Refusal>
    ensures { JudgedLent Err s.old (rule.issue_rule a s.old)
        (leaving result s.new) }
{
    store::issue(s, a)
}

fn restoring_a_file(s: &mut [u8], file: &[u8]) -> Result<usize, Refusal>
    ensures { JudgedLent Err s.old (rule.restore_rule file.now s.old)
        (leaving result s.new) }
{
    store::restore(s, file)
}

fn writing_a_file(s: &[u8], d: &mut [u8]) -> Result<usize, Refusal>
    ensures { JudgedLent Err d.old (rule.write_store_rule s.now d.old)
        (leaving result d.new) }
{
    store::write(s, d)
}

fn looking_up_a_meter(s: &[u8], a: u64) -> Result<Meter, Refusal>
    ensures { Judged Err (rule.look_up_rule a s.now) result }
{
    store::look_up(s, a)
}

fn asking_the_allowance(s: &[u8]) -> Result<u32, Refusal>
    ensures { Judged Err (rule.allowance_rule s.now) result }
{
    store::allowance(s)
}

fn setting_the_allowance(s: &mut [u8], n: u32) -> Result<usize, Refusal>
    ensures { JudgedLent Err s.old (rule.set_allowance_rule n s.old)
        (leaving result s.new) }
{
    store::set_allowance(s, n)
}
