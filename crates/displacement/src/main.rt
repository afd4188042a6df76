// Reads a text of the line form from standard input and prints the line that answers it. A text above 32,768 bytes breaks the form, so bytes past the limit change nothing.
#![tactic(auto)]

use std::io;
use std::io::{Read, Write};

fn main(rt: HostRuntime) -> io::Result<()> {
    let mut text = Vec::new(rt.alloc());
    rt.reader().take(65536).read_to_end(&mut text)?;
    let mut line = [0u8; 128];
    let answer = line_form::answer(text.as_slice(), &mut line);
    if let Ok(length) = answer {
        io::writer(&rt).write_all(&line[..length])?;
    }
    Ok(())
}
