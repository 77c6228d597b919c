use al_expr::{Expr, place_of};
use al_values::{NoMemory, Value};
use sqlite_items::{Boxed, Items};
use std::alloc::Global;
use std::test::Fail;

// A number in a row of casts that has none, which no text has.
fn uncast(alloc: Global) -> Result<Expr, NoMemory> {
    let number = Boxed::new(alloc, Expr::Literal(1, Value::Int(1)))?;
    Ok(Expr::Casts(number, Items::new(alloc)))
}

#[test]
fn place_of_no_casts(rt: HostRuntime) -> Result<(), Fail> {
    let expr = uncast(rt.alloc())?;
    assert_eq!(rt; place_of(&expr), 1);
    Ok(())
}
