// How the story is shown.
use crate::disks::{Broken, contents, files, run};
use nn_base::DirNo;
use nn_memhost::MemHost;
use std::alloc::Global;

/// Where the story is shown, and the memory that it takes.
#[derive(Clone, Copy)]
pub struct Stage<'a, R> {
    pub rt: &'a R,
    pub alloc: Global,
}

impl<'a, R: Print> Stage<'a, R> {
    /// Begins a chapter.
    pub fn chapter(&self, title: &str) -> Result<(), Broken> {
        println!(self.rt; "\n== {title}")?;
        Ok(())
    }

    /// Says a line of explanation.
    pub fn says(&self, line: &str) -> Result<(), Broken> {
        println!(self.rt; "{line}")?;
        Ok(())
    }

    /// Runs the program and shows each line of the script beside its answer.
    pub fn plays(&self, host: &mut MemHost, words: &str, script: &[&str]) -> Result<(), Broken> {
        let text = lines(self.alloc, script)?;
        let said = run(self.alloc, host, words, text.as_str(), None)?;
        self.shows(words, script, said.as_str())
    }

    /// Shows what was said to a script.
    pub fn shows(&self, words: &str, script: &[&str], said: &str) -> Result<(), Broken> {
        println!(self.rt; "$ namenode {words}")?;
        let mut answers = said.lines();
        if !script.is_empty() {
            self.answer(answers.next())?;
        }
        for line in script {
            println!(self.rt; "    > {line}")?;
            'parts: for _ in 0..said.len() {
                match answers.next() {
                    Some(part) if is_part(part) => println!(self.rt; "      {part}")?,
                    last => {
                        if let Some(answer) = last {
                            println!(self.rt; "      {answer}")?;
                        }
                        break;
                    }
                }
            }
        }
        for rest in answers {
            self.answer(Some(rest))?;
        }
        Ok(())
    }

    fn answer(&self, answer: Option<&str>) -> Result<(), Broken> {
        if let Some(answer) = answer {
            println!(self.rt; "    {answer}")?;
        }
        Ok(())
    }

    /// Shows the segments of a directory, with how many bytes each has.
    pub fn segments(&self, host: &mut MemHost, name: &str, i: DirNo) -> Result<(), Broken> {
        for file in files(self.alloc, host, i)? {
            let mut text = Vec::new(self.alloc);
            file.text(&mut text)?;
            let Ok(text) = String::from_utf8(text) else {
                return Err(Broken::Plot);
            };
            if text.as_str().starts_with("edits") {
                let count = contents(self.alloc, host, i, file)?.len();
                println!(self.rt; "    {name}: {text}, {count} bytes")?;
            }
        }
        Ok(())
    }
}

// Whether an answer goes on behind this line.
fn is_part(line: &str) -> bool {
    line.starts_with("d ")
        || line.starts_with("f ")
        || line.starts_with("b ")
        || line.starts_with("dir ")
}

/// A script of these lines.
pub fn lines(alloc: Global, script: &[&str]) -> Result<String, Broken> {
    let mut text = String::new(alloc);
    for line in script {
        text.push_str(line)?;
        text.push('\n')?;
    }
    Ok(text)
}
