// Quotes a choir's orders from a price book, and prints each action as it does it.
#![tactic(auto)]

use estimate::book::promise;
use estimate::order::{Order, Terms};
use estimate::percent::Percent;
use estimate::quote::Quote;
use memory::flat::Flat;
use memory::joined::Joined;
use memory::memory::Memory;
use refusal::refusal::Refusal;
use std::{fmt, io};
use value::kind::Kind;
use value::stock_record::StockRecord;

fn main(rt: HostRuntime) -> anyhow::Result<()> {
    run(&rt)
}

// Two shelves make the book. A choir's order is quoted and its paper promised; an order too large for
// the stock and one for a paper that the book does not have are refused, and leave the book as it was.
fn run(rt: &impl Print) -> anyhow::Result<()> {
    let mut music = [
        StockRecord::build(&[2_000, 650, 230])?,
        StockRecord::build(&[4_500, 1_200, 310])?,
    ];
    let mut covers = [
        StockRecord::build(&[800, 0, 940])?,
        StockRecord::build(&[600, 450, 1_275])?,
    ];
    println!(rt; "Opening the price book: a shelf of music paper, a shelf of covers behind it.")?;
    let book = Joined {
        first: Flat { cells: &mut music },
        second: Flat { cells: &mut covers },
    };
    let mut counter = Counter { rt, book };
    counter.list()?;
    let terms = house_terms()?;
    counter.take_order(order(60, 22, 1, terms))?;
    counter.take_order(order(600, 22, 1, terms))?;
    counter.take_order(order(60, 4, 4, terms))?;
    println!(rt; "Closing the price book.")?;
    counter.list()?;
    Ok(())
}

// The terms of the example: 5 in 100 sheets spoilt, 0.45 cents to fold a sheet, 8 in 100 off from 50
// copies on.
fn house_terms() -> anyhow::Result<Terms> {
    Ok(Terms {
        wastage: Percent::try_from(5)?,
        fold: 45,
        discount: Percent::try_from(8)?,
        large: 50,
    })
}

fn order(copies: u16, pages: u16, paper: u32, terms: Terms) -> Order {
    Order {
        copies,
        pages,
        paper,
        terms,
    }
}

// The shop's counter: the book lies open there, and what is done with it is printed.
#[derive(Drop)]
struct Counter<'a, P, M> {
    rt: &'a P,
    book: M,
}

impl<P: Print, M: Memory<Value = StockRecord>> Counter<'_, P, M> {
    // Prints every paper of the book.
    fn list(&self) -> io::Result<()> {
        (0..self.book.count()).try_for_each(|place| self.print_paper("", place))
    }

    // Prints the paper at a place, where the book has one.
    fn print_paper(&self, action: &str, place: u32) -> io::Result<()> {
        let Ok(paper) = self.book.load(place) else {
            return Ok(());
        };
        println!(self.rt; "  {action}paper {place}: {paper}")
    }

    // Takes an order and prints what is done for it.
    fn take_order(&mut self, order: Order) -> io::Result<()> {
        let Order {
            copies,
            pages,
            paper,
            ..
        } = order;
        println!(self.rt;
            "A choir orders {copies} copies of a score of {pages} pages, on paper {paper}."
        )?;
        self.print_paper("read      ", paper)?;
        match promise(&mut self.book, order) {
            Ok(quote) => {
                print_quote(self.rt, quote)?;
                self.print_paper("stored    ", paper)
            }
            Err(fault) => {
                let refusal = Refusal::from(fault);
                println!(self.rt; "  refused   {refusal}: {fault}; nothing changed")
            }
        }
    }
}

// Five lines in the layout of this program, and so no `Display` of a quote.
fn print_quote(rt: &impl Print, quote: Quote) -> io::Result<()> {
    let Quote { needed, spoilt, .. } = quote;
    println!(rt; "  sheets    {needed} needed, {spoilt} more for wastage")?;
    println!(rt; "  paper     {}", Dollars(quote.paper))?;
    println!(rt; "  folding   {}", Dollars(quote.folding))?;
    println!(rt; "  discount  {}", Dollars(quote.discount))?;
    println!(rt;
        "  to pay    {:>5}.{:02}   dollars",
        quote.cents / 100,
        quote.cents % 100
    )
}

// A price in hundredths of a cent, printed in dollars.
#[derive(Clone, Copy)]
struct Dollars(u64);

impl fmt::Display for Dollars {
    fn fmt<W: fmt::Write>(&self, f: &mut fmt::Formatter<W>) -> fmt::Result {
        let Dollars(price) = *self;
        write!(f, "{:>5}.{:04} dollars", price / 10_000, price % 10_000)
    }
}
