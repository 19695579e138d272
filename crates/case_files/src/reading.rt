use crate::built::{add_text, number_in};
use crate::case_fault::CaseFault;
use crate::fields::Fields;
use crate::line::Line;
use std::alloc::{AllocError, Global};
use std::mem;
use tree_base::{Env, List, Memory, Text, Tree, Var};

/// What reads values of a case. It keeps the first fault and goes on with empty values, so that a value has one exit
/// however many parts it has: `sound` tells at last whether all was read.
#[derive(Drop)]
pub struct Reading {
    pub alloc: Global,
    fault: Option<CaseFault>,
}

impl Reading {
    /// A reading without faults. No memory.
    pub fn new(alloc: Global) -> Reading {
        Reading { alloc, fault: None }
    }

    /// Takes the first fault, where there is one.
    pub fn sound(&mut self) -> Result<(), CaseFault> {
        match mem::replace(&mut self.fault, None) {
            Some(fault) => Err(fault),
            None => Ok(()),
        }
    }

    /// Whether nothing went wrong so far. No memory.
    pub fn is_sound(&self) -> bool {
        self.fault.is_none()
    }

    /// Keeps a fault, where it is the first one.
    pub fn note(&mut self, fault: CaseFault) {
        if self.fault.is_none() {
            self.fault = Some(fault);
        }
    }

    /// Keeps that a case can't be run for this reason.
    pub fn refuse(&mut self, message: &str) {
        let fault = CaseFault::no_case(self.alloc, message);
        self.note(fault);
    }

    /// Keeps that a case can't be run for a reason that was put in words.
    fn refuse_for(&mut self, message: Result<String, AllocError>) {
        match message {
            Ok(message) => self.note(CaseFault::NoCase(Text::from_string(message))),
            Err(_) => self.memory(),
        }
    }

    /// Keeps that a case can't be run since a word is none of those that name such a thing.
    pub fn refuse_word(&mut self, what: &str, word: &str) {
        self.refuse_for(format!(in self.alloc; "`{word}` isn't {what}"));
    }

    /// Keeps that a case can't be run since something in it isn't of its form, as "`limit` wants a number".
    pub fn wants(&mut self, what: &str, form: &str) {
        self.refuse_for(format!(in self.alloc; "`{what}` wants {form}"));
    }

    /// Keeps that a case can't be run since there is no such call.
    pub fn no_call(&mut self, call: &str) {
        self.refuse_for(format!(in self.alloc; "`{call}` is no call"));
    }

    /// Keeps that a case can't be run since an input is missing.
    pub fn missing(&mut self, what: &str) {
        self.refuse_for(format!(in self.alloc; "`{what}` is missing"));
    }

    /// Keeps that memory was wanted.
    pub fn memory(&mut self) {
        self.note(CaseFault::Memory);
    }

    /// What a call gave that wants nothing but memory, or the empty value where there was none, which is kept.
    pub fn given<T: Drop>(&mut self, given: Result<T, Memory>, empty: T) -> T {
        match given {
            Ok(value) => value,
            Err(_) => {
                self.memory();
                empty
            }
        }
    }

    /// Keeps that memory was wanted, where a call ended so.
    pub fn done(&mut self, done: Result<(), Memory>) {
        if done.is_err() {
            self.memory();
        }
    }

    /// What a call gave that wants nothing but memory; None where there was none, which is kept.
    pub fn made<T: Drop>(&mut self, made: Result<T, Memory>) -> Option<T> {
        match made {
            Ok(value) => Some(value),
            Err(_) => {
                self.memory();
                None
            }
        }
    }

    /// A copy of a text.
    pub fn text(&mut self, text: &str) -> Text {
        let copy = Text::from_str(self.alloc, text);
        self.given(copy, Text::new(self.alloc))
    }

    /// The text of a line.
    pub fn said(&mut self, line: Line) -> Text {
        self.given(line.end(), Text::new(self.alloc))
    }

    /// The path itself where it begins with a slash, else the path below the directory.
    pub fn path_in(&mut self, directory: &str, path: &str) -> Text {
        let mut line = Line::new(self.alloc);
        if !path.starts_with('/') {
            line.put(directory);
            line.put("/");
        }
        line.put(path);
        self.said(line)
    }

    /// The words of a line, which white space divides.
    pub fn words_in(&mut self, line: &str) -> List<Text> {
        let mut words = List::new(self.alloc);
        for word in line.split_whitespace() {
            let word = self.text(word);
            self.push(&mut words, word);
        }
        words
    }

    /// The text of a part: a scalar, or a sequence of parts, each a scalar or a mapping `{times: N, of: TEXT}`,
    /// `{times: N, counting: TEXT}` or `{times: N, deeper: TEXT}`.
    pub fn text_of(&mut self, tree: &Tree, what: &str) -> Text {
        let bytes = self.bytes_of(tree, what);
        match String::from_utf8(bytes.into_vec()) {
            Ok(text) => Text::from_string(text),
            Err(_) => {
                self.wants(what, "a text");
                Text::new(self.alloc)
            }
        }
    }

    /// The bytes of a part: a text, of which a part may also be `{bytes: HEXADECIMAL}`, two digits a byte, with spaces
    /// where one likes.
    pub fn bytes_of(&mut self, tree: &Tree, what: &str) -> List<u8> {
        let mut bytes = List::new(self.alloc);
        add_text(self, tree, what, &mut bytes);
        bytes
    }

    /// What stands under a key; None, and that it is missing is kept, where the key isn't there.
    pub fn tree_at<'c>(&mut self, fields: &Fields<'c>, key: &str) -> Option<&'c Tree> {
        let found = fields.find(key);
        if found.is_none() {
            self.missing(key);
        }
        found
    }

    /// The text under a key, which may be built of parts.
    pub fn text_at(&mut self, fields: &Fields, key: &str) -> Text {
        match self.tree_at(fields, key) {
            Some(tree) => self.text_of(tree, key),
            None => Text::new(self.alloc),
        }
    }

    /// The text under a key, which may be built of parts, or another one where the key isn't there.
    pub fn text_or(&mut self, fields: &Fields, key: &str, default: &str) -> Text {
        match fields.find(key) {
            Some(tree) => self.text_of(tree, key),
            None => self.text(default),
        }
    }

    /// The bytes under a key, which may be built of parts.
    pub fn bytes_at(&mut self, fields: &Fields, key: &str) -> List<u8> {
        match self.tree_at(fields, key) {
            Some(tree) => self.bytes_of(tree, key),
            None => List::new(self.alloc),
        }
    }

    /// The number that a part is, below 2 ^ 64.
    pub fn number_of(&mut self, tree: &Tree, what: &str) -> u64 {
        match number_in(tree) {
            Some(number) => number,
            None => {
                self.wants(what, "a number");
                0
            }
        }
    }

    /// The number under a key.
    pub fn number_at(&mut self, fields: &Fields, key: &str) -> u64 {
        match self.tree_at(fields, key) {
            Some(tree) => self.number_of(tree, key),
            None => 0,
        }
    }

    /// The number under a key, or another one where the key isn't there.
    pub fn number_or(&mut self, fields: &Fields, key: &str, default: u64) -> u64 {
        match fields.find(key) {
            Some(tree) => self.number_of(tree, key),
            None => default,
        }
    }

    /// The number of 32 bits under a key.
    pub fn small_at(&mut self, fields: &Fields, key: &str) -> u32 {
        let number = self.number_at(fields, key);
        self.small(number, key)
    }

    /// The number of 32 bits under a key, or another one where the key isn't there.
    pub fn small_or(&mut self, fields: &Fields, key: &str, default: u32) -> u32 {
        let number = self.number_or(fields, key, u64::from(default));
        self.small(number, key)
    }

    fn small(&mut self, number: u64, what: &str) -> u32 {
        match u32::try_from(number) {
            Ok(number) => number,
            Err(_) => {
                self.wants(what, "a number of 32 bits");
                0
            }
        }
    }

    /// Whether a key is `true`, where it is there.
    pub fn flag(&mut self, fields: &Fields, key: &str) -> bool {
        match fields.find(key) {
            Some(tree) => self.flag_of(tree, key),
            None => false,
        }
    }

    fn flag_of(&mut self, tree: &Tree, what: &str) -> bool {
        match self.word(tree).unwrap_or("") {
            "true" => true,
            "false" => false,
            _ => {
                self.wants(what, "true or false");
                false
            }
        }
    }

    /// The texts of the sequence under a key, each of which may be built of parts; none where the key isn't there or
    /// has null.
    pub fn texts(&mut self, fields: &Fields, key: &str) -> List<Text> {
        let mut texts = List::new(self.alloc);
        for item in self.items(fields, key) {
            let text = self.text_of(item, key);
            self.push(&mut texts, text);
        }
        texts
    }

    /// The numbers of the sequence under a key; none where the key isn't there or has null.
    pub fn numbers(&mut self, fields: &Fields, key: &str) -> List<u64> {
        let mut numbers = List::new(self.alloc);
        for item in self.items(fields, key) {
            let number = self.number_of(item, key);
            self.push(&mut numbers, number);
        }
        numbers
    }

    /// The variables of the mapping under a key, whose values may be built of parts; none where the key isn't there or
    /// has null.
    pub fn variables(&mut self, fields: &Fields, key: &str) -> Env {
        let mut variables = Env::new(self.alloc);
        if let Some(fields) = self.fields(fields, key) {
            let entries = fields.entries();
            for (name, tree) in entries.keys().iter().zip(entries.values()) {
                self.add_variable(name, tree, &mut variables);
            }
        }
        variables
    }

    fn add_variable(&mut self, name: &Text, tree: &Tree, to: &mut Env) {
        let value = self.text_of(tree, name.as_str());
        let name = self.text(name.as_str());
        let old = to.put(name, value);
        if old.is_err() {
            self.memory();
        }
    }

    /// The parts of the sequence under a key; none where the key isn't there or has null.
    pub fn items<'c>(&mut self, fields: &Fields<'c>, key: &str) -> &'c [Tree] {
        match fields.find(key) {
            Some(Tree::Seq(items)) => items.as_slice(),
            None | Some(Tree::Null) => &[],
            Some(_) => {
                self.wants(key, "a sequence");
                &[]
            }
        }
    }

    /// The mapping under a key; None where the key isn't there or has null.
    pub fn fields<'c>(&mut self, fields: &Fields<'c>, key: &str) -> Option<Fields<'c>> {
        match fields.find(key) {
            None | Some(Tree::Null) => None,
            Some(tree) => self.fields_of(tree, key),
        }
    }

    /// The mapping under a key; None, which is kept, where there is none.
    pub fn fields_at<'c>(&mut self, fields: &Fields<'c>, key: &str) -> Option<Fields<'c>> {
        let found = self.fields(fields, key);
        if found.is_none() {
            self.missing(key);
        }
        found
    }

    /// The mapping that a part is; None, which is kept, where it is none.
    pub fn fields_of<'c>(&mut self, tree: &'c Tree, what: &str) -> Option<Fields<'c>> {
        match tree {
            Tree::Map(entries) => Some(Fields::new(entries.get())),
            _ => {
                self.wants(what, "a mapping");
                None
            }
        }
    }

    /// The word that a part is; None where it is no scalar. No memory.
    pub fn word<'c>(&self, tree: &'c Tree) -> Option<&'c str> {
        match tree {
            Tree::Scalar(word) => Some(word.as_str()),
            _ => None,
        }
    }

    /// Puts an item last.
    pub fn push<T: Drop>(&mut self, list: &mut List<T>, item: T) {
        self.done(list.push(item));
    }

    /// Puts bytes last.
    pub fn push_bytes(&mut self, list: &mut List<u8>, bytes: &[u8]) {
        self.done(list.extend_from_slice(bytes));
    }

    /// Puts a name with a value last.
    pub fn push_pair(&mut self, pairs: &mut List<Var>, name: &str, value: &str) {
        let name = self.text(name);
        let value = self.text(value);
        self.push(pairs, Var { name, value });
    }

    /// The number of a decimal.
    pub fn number(&mut self, word: &str) -> u64 {
        match word.parse::<u64>() {
            Ok(number) => number,
            Err(_) => {
                self.refuse_word("a number", word);
                0
            }
        }
    }

    /// The number of a decimal that is the place, below 2 ^ 32, of such a thing.
    pub fn place(&mut self, what: &str, word: &str) -> u32 {
        match word.parse::<u32>() {
            Ok(number) => number,
            Err(_) => {
                self.refuse_word(what, word);
                0
            }
        }
    }

    /// The HTTP status of a decimal.
    pub fn status(&mut self, word: &str) -> u16 {
        match u16::try_from(self.number(word)) {
            Ok(status) => status,
            Err(_) => {
                self.refuse_word("a status", word);
                0
            }
        }
    }
}
