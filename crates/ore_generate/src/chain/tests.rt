use super::*;
use ore_problem::print_problem;
use std::test::Fail;

// Whether the printed text of the problem with this number begins with these lines.
fn begins_with(alloc: Global, number: u16, lines: &str) -> Result<bool, Fail> {
    let problem = generate(alloc, number)?;
    let text = print_problem(alloc, &problem)?;
    Ok(text.starts_with(lines.as_bytes()))
}

#[test]
fn texts_of_generated_problems(rt: HostRuntime) -> Result<(), Fail> {
    let even = "ore 1\norder degrevlex\ncoordinate t\ndifferential d t\nmatrix 40 41\nrow d, -2, 0";
    assert!(rt; begins_with(rt.alloc(), 0, even)?);
    let odd = "ore 1\norder degrevlex\ncoordinate t\ndifferential d t\nmatrix 40 41\nrow d, -1, 0";
    assert!(rt; begins_with(rt.alloc(), 65535, odd)?);
    Ok(())
}
