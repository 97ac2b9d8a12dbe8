// For the crates above: the written steps of the product, with its results remembered.
ghost use Rattle.std.specs.Prelude.{◌≡◌};
ghost use Rattle.steps.specs.Steps.{product};
ghost use Rattle.table.specs.Tables.{KeptIn};
ghost use Rattle.sums.specs.Inner.{PairIn};
ghost use Rattle.products.specs.Inner.{Proper, ThreeIn, RestIn, QuadIn, three_steps, rest_steps, then_steps};

use sums::parts::{Parts, split};
use sums::written::sum;
use table::memory::{Operation, key, remember};
use table::rows::Node;
use table::{NoRoom, Row, Table};

// The sum of the first two, and that plus the third. (`join` of the normal form begins with a product; one function for both would be longer than the two lines.)
fn sum_three(t: &mut Table<'_>, n: u16, a: Row, b: Row, c: Row) -> Result<Row, NoRoom>
    requires { ThreeIn n t.old a.0 b.0 c.0 }
    ensures { KeptIn n (three_steps n a.0 b.0 c.0) result t.old t.new }
{
    let d = sum(t, n, a, b)?;
    sum(t, n, d, c)
}

// The product f·g.
#[cycle(product_product_deep_then_part_then_rest)]
pub fn product(t: &mut Table<'_>, n: u16, f: Row, g: Row) -> Result<Row, NoRoom>
    requires { PairIn n t.old f.0 g.0 }
    ensures { KeptIn n (product n f.0 g.0) result t.old t.new }
{
    if f.0 == 1 {
        return Ok(g);
    }
    if f.0 == 0 {
        return Ok(Row(0));
    }
    if g.0 == 0 {
        return Ok(Row(0));
    }
    if g.0 == 1 {
        return Ok(f);
    }
    if f == g {
        return Ok(f);
    }
    // like the sum, where it is said why this is no function of its own
    let slot = t.slot(key(Operation::Product, f, g));
    if let Some(k) = t.recall(slot) {
        return Ok(k);
    }
    let k = product_deep(t, n, f, g)?;
    remember(t.work, slot, k);
    Ok(k)
}

// The same where no constant is among the numbers and they are not equal: then-part, else-part, make.
#[cycle(product_product_deep_then_part_then_rest)]
fn product_deep(t: &mut Table<'_>, n: u16, f: Row, g: Row) -> Result<Row, NoRoom>
    requires pair { PairIn n t.old f.0 g.0 }
    requires proper { Proper f.0 g.0 }
    ensures { KeptIn n (product n f.0 g.0) result t.old t.new }
{
    let p = split(&t.rows(), n, f, g);
    let then_row = then_part(t, n, p)?;
    let else_row = product(t, n, p.fe, p.ge)?;
    t.make(Node {
        v: p.v,
        t: then_row,
        e: else_row,
    })
}

// The then-part: else(f)·then(g), then(f)·then(g), then(f)·else(g), and their sums. Where one then-part is 0, so are two of the products.
#[cycle(product_product_deep_then_part_then_rest)]
fn then_part(t: &mut Table<'_>, n: u16, p: Parts) -> Result<Row, NoRoom>
    requires { QuadIn n t.old p.ft.0 p.fe.0 p.gt.0 p.ge.0 }
    ensures { KeptIn n (then_steps n p.ft.0 p.fe.0 p.gt.0 p.ge.0) result t.old t.new }
{
    if p.gt.0 == 0 {
        return product(t, n, p.ft, p.ge);
    }
    if p.ft.0 == 0 {
        return product(t, n, p.fe, p.gt);
    }
    let a = product(t, n, p.fe, p.gt)?;
    then_rest(t, n, a, p)
}

// The rest of the then-part, after its first product.
#[cycle(product_product_deep_then_part_then_rest)]
fn then_rest(t: &mut Table<'_>, n: u16, a: Row, p: Parts) -> Result<Row, NoRoom>
    requires { RestIn n t.old a.0 p.ft.0 p.gt.0 p.ge.0 }
    ensures { KeptIn n (rest_steps n a.0 p.ft.0 p.gt.0 p.ge.0) result t.old t.new }
{
    let b = product(t, n, p.ft, p.gt)?;
    let c = product(t, n, p.ft, p.ge)?;
    sum_three(t, n, a, b, c)
}
