// Whole runs of the program, over files, an input and an output in memory.
use super::*;
use crate::system::execute_on;
use load_io::{MemoryShelf, MemorySink, SureSource};
use placer::Direct;
use sqlite_keeper::StoreRuntime;
use std::net::{Net, TcpListener, TcpStream};
use std::test::Fail;
use std::time::Clock;

/// A task without containers.
const TASK: &str = "TASK 1
position 11 1 -600 AKE 1500
base 50.00000
window -100.00000 100.00000
ideal 50.00000 50.00000
END
";

/// The status and the plan of it.
const PLANNED: &str = "0 PLAN
index 50.00000
distance 0.00000
CERTIFICATE 1
best
expanded 0
END
";

/// The arguments as the system provides them, after the program's name.
fn args_from(alloc: Global, texts: &[&str]) -> Result<Args, NoMemory> {
    let mut args = vec![in alloc; String::from_str(alloc, "loadctl")?]?;
    for text in texts {
        args.push(String::from_str(alloc, text)?)?;
    }
    Ok(args.into_iter())
}

/// The exit status, a space, and what is printed with these arguments over a file `t`.
fn executed<
    Rt: Threads
        + Wait
        + Sync
        + StoreRuntime
        + Net<Listener = TcpListener, Stream = TcpStream>
        + Clock
        + Copy
        + Send
        + Drop,
>(rt: &Rt, alloc: Global, args: io::Result<Args>) -> Result<String, NoMemory>
where
    Rt::Rows: Send,
    Rt::Hold: Send,
{
    let mut files = Vec::new(alloc);
    let task = Vec::from_slice(alloc, TASK.as_bytes())?;
    files.push((String::from_str(alloc, "t")?, task))?;
    let mut shelf = MemoryShelf::new(files, Vec::new(alloc));
    let mut input = SureSource::new(Vec::new(alloc));
    let mut out = MemorySink::new(alloc, 1_000, Vec::new(alloc))?;
    let status = execute_on(rt, alloc, args, &mut shelf, &mut input, &mut out, &Direct);
    let mut text = format!(in alloc; "{status} ")?;
    text.push_str(str::from_utf8(out.written()).unwrap_or("?"))?;
    Ok(text)
}

#[test]
fn the_arguments_after_the_name_are_run(rt: HostRuntime) -> Result<(), Fail> {
    let rows: [(&[&str], &str); 4] = [
        (&["place", "t"], PLANNED),
        (&["place", "t", "0"], "2 USAGE\n"),
        (&["desk", ":memory:", "u"], "6 "),
        (&["serve", "2", "65535", ":memory:", "u"], "2 USAGE\n"),
    ];
    for (texts, due) in rows {
        let args = args_from(rt.alloc(), texts)?;
        let text = executed(&rt, rt.alloc(), Ok(args))?;
        assert_eq!(rt; text.as_str(), due);
    }
    Ok(())
}

/// The errors that the system's arguments can have.
#[test]
fn arguments_that_are_not_text_are_invalid(rt: HostRuntime) -> Result<(), Fail> {
    let rows = [
        (ErrorKind::InvalidData, "2 USAGE\n"),
        (ErrorKind::OutOfMemory, "9 "),
    ];
    for (kind, due) in rows {
        let args = Err(io::Error::from(kind));
        let text = executed(&rt, rt.alloc(), args)?;
        assert_eq!(rt; text.as_str(), due);
    }
    Ok(())
}
