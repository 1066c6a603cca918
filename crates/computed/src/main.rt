// Asks the watches, whose rows are worked out from their places, by the same code as the tables.
//
// What it is to print is worked out by hand from the rules. With 11 places, those that are not 2, 5 or 8 are filled.
// Watchman and number, then first day and end:
//     0 0: 0 to 25    0 4: 40 to 65   0 6: 60 to 85   0 10: 100 to 125
//     1 1: 10 to 35   1 3: 30 to 55   1 7: 70 to 95   1 9: 90 to 115
// `watchmen` has the numbers dropped, and what then shares a day made one: 4 with 6, 1 with 3, 7 with 9.
// `present` takes from that the days 45 to 75 on which the watchman has a watch: all of them for watchman 0,
// 45 to 55 and 70 to 75 for watchman 1. `asked` cuts each watch to the days on which its watchman is present,
// and all to the days 10 to 100: watch 10, from day 100 on, is gone.
// `handovers` has the shared days of watches 4 and 6 (60 to 65), 1 and 3 (30 to 35), 7 and 9 (90 to 95);
// the first of these lie inside 45 to 75, where the earlier watch is taken away.
#![tactic(auto)]

ghost use Rattle.collect.specs.Collects.{Collects, first_of, no_collect};
ghost use Rattle.computed.specs.Handovers.{handovers, handovers_plan, no_handovers};
ghost use Rattle.computed.specs.Watches.{watches, no_watches};
ghost use Rattle.layers.specs.Windows.{windowed, no_window};
ghost use Rattle.plans.specs.Questions.{out, bare, uncovered, out_plan, bare_plan, uncovered_plan, no_out, no_bare, no_uncovered, collected};
ghost use Rattle.source.specs.Meaning.{day_set};

mod handovers;
mod watches;

use crate::handovers::list_handovers;
use crate::watches::Watches;
use collect::collects::collect;
use layers::windows::Window;
use plans::questions::{list_bare, list_out, list_uncovered};
use relation::days::Span;
use relation::refusals::Refusal;
use relation::rows::Row;
use std::io;
use tree::Node;

// The days on which the present watchmen's watches are asked for.
const ASKED: Span = Span {
    first: 10,
    end: 100,
};

// The days that are left out.
const AWAY: Span = Span { first: 45, end: 75 };

// The areas that a list is made in. Arrays, and no `Workspace`: the program asks nothing of the heap, so they cannot fail to be made.
#[derive(Drop)]
struct Work {
    rows: [Row; 64],
    index: [Node; 64],
}

impl Work {
    // The watches themselves.
    fn watches(&mut self, count: usize) -> Result<usize, Refusal>
        ensures { Collects (first_of (no_watches count) (no_collect (watches count) self.old.rows self.old.index)) (day_set (watches count)) self.old.rows self.old.index result self.new.rows self.new.index }
    {
        let watches = Watches::new(count)?;
        collect(&watches, &mut self.rows, &mut self.index)
    }

    // Which watchmen have a watch.
    fn watchmen(&mut self, count: usize) -> Result<usize, Refusal>
        ensures { Collects (first_of (no_watches count) (collected (no_out (watches count)) (out_plan (watches count)) self.old.rows self.old.index)) (out (watches count)) self.old.rows self.old.index result self.new.rows self.new.index }
    {
        list_out(Watches::new(count)?, &mut self.rows, &mut self.index)
    }

    // The same, but for some days.
    fn present(&mut self, count: usize, days: Span) -> Result<usize, Refusal>
        ensures { Collects (first_of (no_watches count) (first_of (no_window days.first days.end) (collected (no_bare (watches count) (windowed (watches count) days.first days.end)) (bare_plan (watches count) (windowed (watches count) days.first days.end)) self.old.rows self.old.index))) (bare (watches count) (windowed (watches count) days.first days.end)) self.old.rows self.old.index result self.new.rows self.new.index }
    {
        let watches = Watches::new(count)?;
        let absent = Window::new(watches, days)?;
        list_bare(watches, absent, &mut self.rows, &mut self.index)
    }

    // The present watchmen with the numbers of their watches, on the days 10 to 100.
    fn asked(&mut self, count: usize, days: Span) -> Result<usize, Refusal>
        ensures { Collects (first_of (no_watches count) (first_of (no_window days.first days.end) (collected (no_uncovered (watches count) (windowed (watches count) days.first days.end) (watches count) 10 100) (uncovered_plan (watches count) (windowed (watches count) days.first days.end) (watches count) 10 100) self.old.rows self.old.index))) (uncovered (watches count) (windowed (watches count) days.first days.end) (watches count) 10 100) self.old.rows self.old.index result self.new.rows self.new.index }
    {
        let watches = Watches::new(count)?;
        let absent = Window::new(watches, days)?;
        list_uncovered(
            watches,
            absent,
            watches,
            ASKED,
            &mut self.rows,
            &mut self.index,
        )
    }

    // Two watches of one watchman that share a day, the earlier one outside some days.
    fn handovers(&mut self, count: usize, days: Span) -> Result<usize, Refusal>
        ensures { Collects (collected (no_handovers count days.first days.end) (handovers_plan (watches count) days.first days.end) self.old.rows self.old.index) (handovers (watches count) days.first days.end) self.old.rows self.old.index result self.new.rows self.new.index }
    {
        list_handovers(count, days, &mut self.rows, &mut self.index)
    }

    // Prints the list that was made, with so many columns, or why it was refused.
    fn show(
        &self,
        rt: &HostRuntime,
        name: &str,
        columns: usize,
        made: Result<usize, Refusal>,
    ) -> io::Result<()> {
        match made {
            Ok(count) => {
                println!(rt; "{name}: {count} rows")?;
                for row in self.rows.iter().take(count) {
                    print_row(rt, row, columns)?;
                }
                Ok(())
            }
            Err(refusal) => println!(rt; "{name}: refused {}", refusal.reason.number()),
        }
    }
}

fn print_row(rt: &HostRuntime, row: &Row, columns: usize) -> io::Result<()> {
    for value in row.values.iter().take(columns) {
        print!(rt; "{value} ")?;
    }
    println!(rt; "from {} to {}", row.first, row.end)
}

fn main(rt: HostRuntime) -> io::Result<()> {
    let mut work = Work {
        rows: [Row::blank(); 64],
        index: [Node::blank(); 64],
    };
    let made = work.watches(11);
    work.show(&rt, "watches", 2, made)?;
    let made = work.watchmen(11);
    work.show(&rt, "watchmen", 1, made)?;
    let made = work.present(11, AWAY);
    work.show(&rt, "present", 1, made)?;
    let made = work.asked(11, AWAY);
    work.show(&rt, "asked", 2, made)?;
    let made = work.handovers(11, AWAY);
    work.show(&rt, "handovers", 3, made)?;
    // More filled places than work rows, more than 1,000,000,000 places, and a watch that ends after the last day.
    let made = work.watches(99_998);
    work.show(&rt, "all watches", 2, made)?;
    let made = work.present(99_998, AWAY);
    work.show(&rt, "all present", 1, made)?;
    let made = work.handovers(99_999, AWAY);
    work.show(&rt, "too many", 3, made)
}
