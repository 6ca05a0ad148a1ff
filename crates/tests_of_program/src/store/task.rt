//! What the program's words ask for.
use rrd_store::{Task, parse_task};
use std::alloc::Global;
use std::test::Fail;

fn shown(alloc: Global, task: &Task<'_>) -> Result<String, Fail> {
    Ok(match task {
        Task::Usage => format!(in alloc; "usage")?,
        Task::Batch => format!(in alloc; "batch")?,
        Task::FileBatch { file } => format!(in alloc; "batch over {file}")?,
        Task::Single { file, words } => {
            let name = words.first().unwrap_or("nothing");
            let count = words.len();
            format!(in alloc; "{name} of {count} over {file}")?
        }
    })
}

// The program's words, which begin with its own name, and what they ask for.
const WORDS: &[(&str, &str)] = &[
    ("", "usage"),
    ("rrdi", "usage"),
    ("rrdi --help", "usage"),
    ("rrdi batch", "batch"),
    ("rrdi batch x.rrdi", "batch over x.rrdi"),
    ("rrdi batch -", "usage"),
    ("rrdi batch -h", "usage"),
    ("rrdi batch x.rrdi last", "usage"),
    ("rrdi last", "usage"),
    ("rrdi last --help", "usage"),
    ("rrdi last x.rrdi", "last of 1 over x.rrdi"),
    ("rrdi update batch 10:1 20:2", "update of 3 over batch"),
    ("rrdi nothing x.rrdi", "nothing of 1 over x.rrdi"),
];

#[test]
fn what_words_ask_for(rt: HostRuntime) -> Result<(), Fail> {
    let alloc = rt.alloc();
    for (line, wanted) in WORDS {
        let mut words = Vec::new(alloc);
        for word in line.split(' ').filter(|word| !word.is_empty()) {
            words.push(String::from_str(alloc, word)?)?;
        }
        let task = parse_task(alloc, &words)?;
        assert_eq!(&rt; shown(alloc, &task)?.as_str(), *wanted, "{line}");
    }
    Ok(())
}
