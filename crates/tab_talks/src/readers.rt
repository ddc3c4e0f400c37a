//! The reading of files of talks, line by line. docs/TESTING.md has their format.

use crate::messages::{Form, Message};
use crate::repeats::Repeat;
use crate::replies::NamedReplies;
use crate::talks::Talk;
use crate::unreadable::{Unreadable, Why};
use std::alloc::Global;
use std::mem;

/// The message that is being read.
#[derive(Drop)]
enum Open {
    Nothing,
    Request(Message),
    Reply(Message),
    /// A reply that is kept under a name.
    Named(String, Message),
}

/// What has been read, from line to line and from file to file.
#[derive(Drop)]
pub struct Reader {
    alloc: Global,
    replies: NamedReplies,
    talks: Vec<Talk>,
    open: Open,
    repeat: Option<Repeat>,
    /// The number of the line in its file.
    line: usize,
}

impl Reader {
    pub fn new(alloc: Global) -> Reader {
        Reader {
            alloc,
            replies: NamedReplies::new(alloc),
            talks: Vec::new(alloc),
            open: Open::Nothing,
            repeat: None,
            line: 0,
        }
    }

    /// Reads a file's text, and answers its talks. The replies that it names are known from here on.
    pub fn read(&mut self, text: &str) -> Result<Vec<Talk>, Unreadable> {
        self.line = 0;
        match self.read_lines(text) {
            Ok(()) => Ok(mem::replace(&mut self.talks, Vec::new(self.alloc))),
            Err(why) => Err(Unreadable {
                line: self.line,
                why,
            }),
        }
    }

    fn read_lines(&mut self, text: &str) -> Result<(), Why> {
        for line in text.lines() {
            self.line = self.line.saturating_add(1);
            self.take_line(line)?;
        }
        if self.repeat.is_some() {
            return Err(Why::NoAgain);
        }
        self.end_talk()
    }

    /// Takes a line of the file.
    fn take_line(&mut self, line: &str) -> Result<(), Why> {
        match self.repeat.take() {
            None => self.take_text(line),
            Some(repeat) if line == "again" => self.take_repeated(&repeat),
            Some(mut repeat) => {
                repeat.push(self.alloc, self.line, line)?;
                self.repeat = Some(repeat);
                Ok(())
            }
        }
    }

    /// Takes the lines so many times.
    fn take_repeated(&mut self, repeat: &Repeat) -> Result<(), Why> {
        for time in 0..repeat.count {
            self.take_once(repeat, time)?;
        }
        Ok(())
    }

    fn take_once(&mut self, repeat: &Repeat, time: usize) -> Result<(), Why> {
        for line in &repeat.lines {
            self.line = line.number;
            let text = repeat.text_at(self.alloc, line, time)?;
            self.take_text(text.as_str())?;
        }
        Ok(())
    }

    /// Takes a line as its mark says.
    fn take_text(&mut self, line: &str) -> Result<(), Why> {
        let (mark, text) = line.split_once(' ').unwrap_or((line, ""));
        match mark {
            ">" => self.take_request(Form::Lines, text),
            ">>" => self.take_request(Form::Bytes, text),
            "<" => self.take_reply(Form::Lines, text),
            "<<" => self.take_reply(Form::Bytes, text),
            "<=" => self.take_name(text),
            "repeat" => {
                self.repeat = Some(Repeat::new(self.alloc, text)?);
                Ok(())
            }
            _ => {
                self.close()?;
                self.take_alone(mark, text)
            }
        }
    }

    /// Takes a line that is none of a message.
    fn take_alone(&mut self, mark: &str, text: &str) -> Result<(), Why> {
        match mark {
            "#" => Ok(()),
            "" if text.is_empty() => Ok(()),
            "talk" => self.begin_talk(text),
            "reply" => self.begin_named(text),
            _ => self.take_event(mark, text),
        }
    }

    /// Takes a line of the talk that is being read.
    fn take_event(&mut self, mark: &str, text: &str) -> Result<(), Why> {
        let (alloc, line) = (self.alloc, self.line);
        let talk = self.talk()?;
        match mark {
            "words" => talk.set_words(alloc, text),
            "now" => talk.push_now(alloc, line, text),
            "|" => talk.push_schedule(text, b"\n"),
            "||" => talk.push_schedule(text, b""),
            "=" => talk.push_due(alloc, line, text, b"\n"),
            "==" => talk.push_due(alloc, line, text, b""),
            "status" => talk.push_status(alloc, line, text),
            _ => Err(Why::UnknownMark),
        }
    }

    fn begin_talk(&mut self, title: &str) -> Result<(), Why> {
        self.end_talk()?;
        self.talks.push(Talk::new(self.alloc, self.line, title)?)?;
        Ok(())
    }

    fn begin_named(&mut self, name: &str) -> Result<(), Why> {
        self.open = Open::Named(
            String::from_str(self.alloc, name)?,
            Message::new(self.alloc, self.line, Form::Lines),
        );
        Ok(())
    }

    /// The talk that is being read.
    fn talk(&mut self) -> Result<&mut Talk, Why> {
        match self.talks.last_mut() {
            Some(talk) => Ok(talk),
            None => Err(Why::NoTalk),
        }
    }

    fn take_request(&mut self, form: Form, text: &str) -> Result<(), Why> {
        if let Open::Request(message) = &mut self.open {
            return message.push(form, text);
        }
        self.close()?;
        let mut message = Message::new(self.alloc, self.line, form);
        message.push(form, text)?;
        self.open = Open::Request(message);
        Ok(())
    }

    fn take_reply(&mut self, form: Form, text: &str) -> Result<(), Why> {
        match &mut self.open {
            Open::Reply(message) | Open::Named(_, message) => return message.push(form, text),
            _ => {}
        }
        self.end_request()?;
        let mut message = Message::new(self.alloc, self.line, form);
        message.push(form, text)?;
        self.open = Open::Reply(message);
        Ok(())
    }

    fn take_name(&mut self, name: &str) -> Result<(), Why> {
        self.end_request()?;
        let (alloc, line) = (self.alloc, self.line);
        let Some(reply) = self.replies.get(name) else {
            return Err(Why::UnknownReply);
        };
        match self.talks.last_mut() {
            Some(talk) => talk.push_reply(alloc, line, reply),
            None => Err(Why::NoTalk),
        }
    }

    /// Ends the request that is being read, since its reply begins.
    fn end_request(&mut self) -> Result<(), Why> {
        let Open::Request(message) = mem::replace(&mut self.open, Open::Nothing) else {
            return Err(Why::NoRequest);
        };
        let alloc = self.alloc;
        let bytes = message.bytes(alloc)?;
        self.talk()?.push_call(alloc, bytes.as_slice())
    }

    /// Ends the reply that is being read, if there is one.
    fn close(&mut self) -> Result<(), Why> {
        let alloc = self.alloc;
        match mem::replace(&mut self.open, Open::Nothing) {
            Open::Nothing => Ok(()),
            Open::Request(_) => Err(Why::NoReply),
            Open::Named(name, message) => self.replies.insert(name, message.bytes(alloc)?),
            Open::Reply(message) => {
                let line = message.line;
                let bytes = message.bytes(alloc)?;
                self.talk()?.push_reply(alloc, line, bytes.as_slice())
            }
        }
    }

    /// Ends the talk that is being read, if there is one.
    fn end_talk(&mut self) -> Result<(), Why> {
        self.close()?;
        match self.talks.last_mut() {
            Some(talk) => talk.end(self.alloc),
            None => Ok(()),
        }
    }
}
