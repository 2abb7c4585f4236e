// Orders against the price book, a memory of stock records.
ghost use Rattle.std.specs.Prelude.{◌≡◌, IfOk};
ghost use Rattle.std.specs.Option.{ok_or};
ghost use Rattle.value.specs.declared.fault.ValueFault.TheVariants.{NoValue};
ghost use Rattle.estimate.specs.Quote.{Fair};
ghost use Rattle.estimate.specs.Book.{placed, all_sheets, more_promised, Backed};

use crate::fault::OrderFault;
use crate::order::Order;
use crate::quote::Quote;
use memory::memory::Memory;
use value::fault::ValueFault;
use value::kind::Kind;
use value::stock_record::StockRecord;

// Quotes an order at the price in the book, and promises its sheets there. Refused where the book has
// no such paper, or not enough of it that is not promised yet; the book then stays as it is.
pub fn promise<M: Memory<Value = StockRecord>>(
    book: &mut M,
    order: Order,
) -> Result<Quote, OrderFault>
    ensures placed { (result, M.Memory.cells book.new) ≡ placed (M.Memory.cells book.old) order }
    ensures fair { IfOk result (λ q. Fair order q) }
    ensures backed { Backed (M.Memory.cells book.old) → Backed (M.Memory.cells book.new) }
{
    let paper = book.load(order.paper)?;
    let quote = order.estimate(paper.price());
    let more = with_promised(paper, quote)?;
    book.store(order.paper, more)?;
    Ok(quote)
}

// The record with the quote's sheets promised too.
fn with_promised(paper: StockRecord, quote: Quote) -> Result<StockRecord, ValueFault>
    ensures { result ≡ ok_or (more_promised paper (all_sheets quote)) (NoValue 3) }
{
    let promised = u64::from(paper.promised()) + u64::from(quote.needed) + u64::from(quote.spoilt);
    StockRecord::build(&[paper.on_hand().into(), promised, paper.price().into()])
}
