// How many events each caller may make.
ghost use Rattle.std.specs.Prelude.{◌+◌, ◌*◌, ◌≤◌, length};
ghost use Rattle.std.specs.List.{AllByRecursion};
ghost use Rattle.event_words.specs.Sections.{most_section_events};
ghost use Rattle.script_reader.specs.Scripts.{IsWellFormedScript, need_of, HasAtMost};

use script_reader::Script;

/// The most events of a section, at least 1.
pub fn budget(script: &Script) -> u32
    requires formed { IsWellFormedScript script.now }
    requires few { need_of script.now ≤ 1048576 }
    ensures some { 1 ≤ result }
    ensures fits { (length script.now.lanes + 1) * result ≤ need_of script.now }
    ensures boot { HasAtMost result script.now.boot }
    ensures lanes { AllByRecursion (HasAtMost result) script.now.lanes }
{
    let callers = script.lanes.len() as u64 + 1;
    (script.need() / callers) as u32
}
