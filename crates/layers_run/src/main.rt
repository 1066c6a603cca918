// Builds every layer over two tables and lists the rows, or says why a layer was refused.
#![tactic(auto)]

use layers::parts::Part;
use layers::projects::Project;
use layers::selects::Select;
use layers::unions::Union;
use layers::windows::Window;
use relation::conditions::{Condition, Sign, Term};
use relation::days::Span;
use relation::kinds::Kind;
use relation::refusals::Refusal;
use relation::rows::Row;
use source::filled::Filled;
use source::tables::Table;
use std::io;

#[derive(Clone, Copy)]
struct Question<'a> {
    condition: Condition,
    days: Span,
    columns: &'a [usize],
}

type Listed<'a> = Union<Project<Part<Select<Table<'a>>>>, Project<Part<Table<'a>>>>;

// The rows of the first table that meet the condition, then the second table during the period, with the columns of each.
fn listed<'a>(
    rows: &'a [Row],
    others: &'a [Row],
    kinds: &'a [Kind],
    question: Question<'_>,
) -> Result<Listed<'a>, Refusal> {
    let select = Select::new(Table::open(rows, kinds)?, question.condition)?;
    let window = Window::new(Table::open(others, kinds)?, question.days)?;
    let left = Project::new(Part::Whole(select), question.columns)?;
    let right = Project::new(Part::During(window), question.columns)?;
    Union::new(left, right)
}

fn row(first: u32, end: u32, a: i64, b: i64) -> Row {
    Row {
        first,
        end,
        values: [a, b, 0, 0, 0, 0],
    }
}

// At most so many rows are written.
const MOST_WRITTEN: usize = 8;

fn print_listed(rt: &HostRuntime, question: Question<'_>) -> io::Result<()> {
    let rows = [row(0, 5, 7, 10), row(5, 9, 8, 20), row(2, 4, 7, 30)];
    let others = [row(0, 9, 1, 2), row(8, 12, 3, 4), row(9, 12, 5, 6)];
    match listed(&rows, &others, &[Kind::Number; 2], question) {
        Ok(union) => {
            let count = Filled::new(&union).take(MOST_WRITTEN).count();
            println!(rt; "{count} rows")?;
            for row in Filled::new(&union).take(MOST_WRITTEN) {
                println!(rt; "{} {} {:?}", row.first, row.end, row.values)?;
            }
            Ok(())
        }
        Err(refusal) => println!(rt; "refused {}", refusal.reason.number()),
    }
}

// The first column holds 7.
const CONDITION: Condition = Condition {
    column: 1,
    sign: Sign::Equal,
    term: Term::Number(7),
};

fn main(rt: HostRuntime) -> io::Result<()> {
    let question = Question {
        condition: CONDITION,
        days: Span { first: 6, end: 9 },
        columns: &[2, 1, 2],
    };
    let missing = Condition {
        column: 3,
        ..CONDITION
    };
    let large = Condition {
        term: Term::Number(1_000_000_000_001),
        ..CONDITION
    };
    let questions = [
        question,
        Question {
            condition: missing,
            ..question
        },
        Question {
            condition: large,
            ..question
        },
        Question {
            days: Span { first: 6, end: 6 },
            ..question
        },
        Question {
            columns: &[],
            ..question
        },
    ];
    for question in questions {
        print_listed(&rt, question)?;
    }
    Ok(())
}
