// Numbers on standard output, each after a space.
use std::fmt::Display;
use std::io;

pub fn print_numbers<T: Display>(rt: &impl Print, xs: &[T]) -> io::Result<()> {
    for x in xs {
        print!(rt; " {x}")?;
    }
    Ok(())
}
