//! How questions are drawn.
use crate::asks::Ask;
use crate::generator::Generator;
use crate::rules::Rule;
use analysis::TableRule;
use book::Plan;

/// A table of ranks by place, many of them equal and some at the largest number.
fn draw_ranks(g: &mut Generator) -> Rule {
    let mut ranks = [0u64; 16];
    for rank in ranks.iter_mut() {
        *rank = if g.one_in(6) {
            u64::MAX
        } else {
            g.below(3) as u64
        };
    }
    Rule::Table(TableRule { ranks })
}

/// One of the four rules.
fn draw_rule(g: &mut Generator) -> Rule {
    match g.below(4) {
        0 => draw_ranks(g),
        1 => Rule::Period,
        2 => Rule::Deadline,
        _ => Rule::LaterFirst,
    }
}

/// An occupied place of the plan, or now and then any place.
fn draw_place(g: &mut Generator, plan: &Plan) -> u8 {
    if g.one_in(20) {
        return g.below(256) as u8;
    }
    let start = g.below(16) as u8;
    (0..16u8)
        .map(|by| start.saturating_add(by) % 16)
        .find(|place| plan.draft().entry(*place).is_some())
        .unwrap_or(start)
}

/// A question on the plan with a mostly small index below `most`, or now and then with any index, or with short sheets.
pub(crate) fn draw_ask(g: &mut Generator, plan: &Plan, most: u32) -> Ask {
    Ask {
        rule: draw_rule(g),
        place: draw_place(g, plan),
        index: if g.one_in(20) {
            g.between(0, u32::MAX)
        } else {
            g.small(most)
        },
        short: g.one_in(40),
    }
}
