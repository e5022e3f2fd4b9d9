//! The theorem that a request's body always parses to the same command or fault, unless memory runs
//! out.
ghost use Rattle.office_http.specs.Wants.Bodies.{BodiesGiveOne};

use point_list::texts_spell_one_list;
use read_plan::lists_are_planned_once;

/// Theorem: a request's body always parses to the same command or fault, unless memory runs out.
pub fn bodies_give_one_command()
    ensures { BodiesGiveOne }
{
    lists_are_planned_once();
    texts_spell_one_list();
}
