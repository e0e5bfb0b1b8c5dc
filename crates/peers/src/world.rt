//! A session: its limits and documents, and one command by its words.

ghost use Rattle.std.specs.Prelude.{◌≡◌, ◌≢◌, ◌<◌, Some, Ok, Err, [], false, true, nat_le, length, chars, ◌+◌, ◌≤◌};
ghost use Rattle.std.specs.Prelude.{option_map, IfOk};
ghost use Rattle.text_model.specs.Lines.{lines};
ghost use Rattle.tcl_words.specs.Unread.{texts_of};
ghost use Rattle.command_table.specs.Reading.{reading};
ghost use Rattle.command_effects.specs.Settings.{is_behind};
ghost use Rattle.command_effects.specs.Words.{is_among};
ghost use Rattle.reports.specs.Cells.{characters};
ghost use Rattle.documents.specs.Kept.{is_window_name};
ghost use Rattle.peers.specs.History.{can_redo_by, can_undo_by};
ghost use Rattle.peers.specs.Step.{Makes, changed, create_named, create, create_shaped, destroy, destroy_shaped};
ghost use Rattle.peers.specs.Step.{on_widget, step, are_frugal};
ghost use Rattle.peers.specs.Requests.{request_step, widget_of, words_of};
ghost use Rattle.peers.specs.Commands.{is_frugal, is_frugal_reading};
ghost use Rattle.peers.specs.Concerned.{homes_asked, text_of_words};
ghost use Rattle.peers.specs.Widgets.{peer_create, peer_with};
ghost use Rattle.peers.specs.WellFormed.{IsWellFormed};
ghost use Rattle.peers.specs.World.{all_windows, document_at, home};
ghost use Rattle.peers.specs.Laws.{names_read};
ghost use Rattle.peers.specs.MarksTold.{MarksTellAt, MarksTellOf, TellsDropped};
ghost use Rattle.peers.specs.Told.{answer_of, no_edit, TellsAt, TellsOf};
ghost use Rattle.documents.specs.Options.{AreLines};

use crate::commands::carry_out;
use crate::document_list::Documents;
use crate::marks::marks_before;
use crate::options::settings_given;
use crate::requests::Request;
use crate::told::{Follows, Told, answered};
use crate::widgets::peer_settings;
use crate::windows::Windows;
use crate::words::is_window_name;
use command_effects::{Answer, Fault, Settings, is_word};
use command_table::{Command, shape};
use documents::{Caller, Document, EditTold, MarkList};
use std::alloc::{AllocError, Global};
use std::marker::Model;
use text_model::{Limits, TextStore};

/// All that a session of commands can see later: the limits, and the documents with their widgets.
#[derive(Drop)]
pub struct World<S: TextStore> {
    limits: Limits,
    documents: Documents<S>,
}

impl<S: TextStore> Model for World<S> {
    ghost use Rattle.std.specs.Coded.{codes};
    ghost use Rattle.std.specs.FinSet as set;
    ghost use Rattle.text_model.specs.contracts.places.Place as place;
    ghost use Rattle.reports.specs.Keys.{key_cmp, key_code};
    ghost use Rattle.peers.specs.World.{World as WorldState};
    ghost use Rattle.peers.specs.WellFormed.{IsWellFormed};

    ghost Value = { WorldState };

    ghost coded = { Prim.hlevel (codes, place.the_row.coded, set.code {R = key_cmp} key_code) };

    ghost view = { λ w. record { limits = w.limits; documents = w.documents.list.items } };

    ghost invariant = { λ w. IsWellFormed (record { limits = w.limits; documents = w.documents.list.items }) };
}

impl<S: TextStore> World<S> {
    /// A world without documents. It takes no memory.
    pub fn new(alloc: Global, limits: Limits) -> Self
        ensures start { result ≡ record { limits = limits; documents = [] } }
        ensures well_formed { IsWellFormed result }
    {
        // Where one of the limits is read, all are known to be in their bounds.
        let _chars = limits.chars();
        World {
            limits,
            documents: Documents::new(alloc),
        }
    }

    /// Whether a widget of any document has this name.
    fn has_widget(&self, name: &str) -> bool
        ensures value { result ≡ is_among (chars name.now) (all_windows self.now) }
        ensures well_formed { IsWellFormed self.now }
    {
        self.documents.find(name).is_some()
    }

    /// Whether there are as many widgets, of all documents, as there may be.
    fn is_full(&self) -> bool
        ensures { result ≡ nat_le self.now.limits.widgets (length (all_windows self.now)) }
    {
        self.documents.widget_count() >= self.limits.widgets() as usize
    }

    /// Makes a widget of a name on a document of its own, with options.
    fn create_named(&mut self, name: &str, settings: Settings) -> Result<Answer, Fault>
        requires named { is_window_name (chars name.now) ≡ true }
        requires lines { AreLines 1 settings }
        requires ordered { is_behind settings.start settings.end ≡ false }
        ensures { Makes self.old self.new result (create_named self.old (chars name.now) settings) }
    {
        if self.has_widget(name) {
            return Err(Fault::WindowExists(1));
        }
        if self.is_full() {
            return Err(Fault::TooManyWidgets);
        }
        self.documents.add(name, settings)?;
        Ok(Answer::Word(1))
    }

    /// `text W ?option value ..?` (text(n), "text").
    fn create(&mut self, arguments: &[String]) -> Result<Answer, Fault>
        requires well_formed { IsWellFormed self.old }
        requires near { 2 + length arguments.now ≤ usize.MAX }
        ensures { Makes self.old self.new result (create self.old (texts_of arguments.now)) }
    {
        let [name, options @ ..] = arguments else {
            return Err(Fault::WrongArguments);
        };
        if !is_window_name(name.as_str()) {
            return Err(Fault::InvalidCommandName(1));
        }
        let settings = settings_given(Settings::new(), 2, options, 1)?;
        self.create_named(name.as_str(), settings)
    }

    /// `text W ?option value ..?`, of all its words.
    fn create_shaped(&mut self, words: &[String]) -> Result<Answer, Fault>
        requires well_formed { IsWellFormed self.old }
        requires words { 0 < length words.now }
        ensures { Makes self.old self.new result
            (create_shaped self.old (texts_of words.now) (reading (texts_of words.now))) }
    {
        let shape = shape(words).map_err(Fault::of_shape)?;
        self.create(&words[shape.arguments..])
    }

    /// Returns the marks of the widgets of these names, where they are asked for.
    fn marks_dropped(&self, names: &[String], marks: bool) -> Result<MarkList, AllocError>
        ensures told { marks ≡ true → IfOk result (λ marks.
            TellsDropped (texts_of names.now) self.now.documents marks) }
        ensures unasked { marks ≡ false → IfOk result (λ marks. marks ≡ []) }
    {
        if marks {
            self.documents.list_dropped(names)
        } else {
            Ok(MarkList::new(self.documents.alloc))
        }
    }

    /// `destroy ?W ..?` (Tk's destroy(n)). It reports the marks of these widgets where they are asked for.
    fn destroy(&mut self, names: &[String], marks: bool) -> Result<Told, Fault>
        ensures makes { Makes self.old self.new (answer_of result) (destroy self.old (texts_of names.now)) }
        ensures edit { IfOk result (λ told. told.edit ≡ no_edit) }
        ensures told { marks ≡ true → IfOk result (λ told.
            TellsDropped (texts_of names.now) self.old.documents told.marks) }
        ensures unasked { marks ≡ false → IfOk result (λ told. told.marks ≡ []) }
    {
        let dropped = self.marks_dropped(names, marks)?;
        self.documents.drop_widgets(names)?;
        Ok(Told {
            answer: Answer::Empty,
            edit: EditTold::nothing(self.documents.alloc),
            marks: dropped,
        })
    }

    /// `destroy ?W ..?`, of all its words.
    fn destroy_shaped(&mut self, words: &[String], marks: bool) -> Result<Told, Fault>
        requires well_formed { IsWellFormed self.old }
        requires words { 0 < length words.now }
        ensures makes { Makes self.old self.new (answer_of result)
            (destroy_shaped self.old (texts_of words.now) (reading (texts_of words.now))) }
        ensures edit { IfOk result (λ told. told.edit ≡ no_edit) }
        ensures told { marks ≡ true → IfOk result (λ told.
            TellsDropped (names_read (texts_of words.now) (reading (texts_of words.now))) self.old.documents
            told.marks) }
        ensures unasked { marks ≡ false → IfOk result (λ told. told.marks ≡ []) }
    {
        let shape = shape(words).map_err(Fault::of_shape)?;
        self.destroy(&words[shape.arguments..], marks)
    }

    /// Makes a further widget of the document at a place, of the name that is the word at a position, with options.
    fn add_peer(
        &mut self,
        place: usize,
        position: usize,
        name: &str,
        settings: Settings,
    ) -> Result<Answer, Fault>
        requires place { place < length self.old.documents }
        requires named { is_window_name (chars name.now) ≡ true }
        requires lines { AreLines (lines (characters (document_at self.old.documents place).cells)) settings }
        requires ordered { is_behind settings.start settings.end ≡ false }
        ensures { let document = document_at self.old.documents place in
            Makes self.old self.new result (changed self.old place
            (peer_with self.old.limits (all_windows self.old) document position (chars name.now) settings)) }
    {
        if self.has_widget(name) {
            return Err(Fault::WindowExists(position));
        }
        if self.is_full() {
            return Err(Fault::TooManyWidgets);
        }
        self.documents.add_peer(place, name, settings)?;
        Ok(Answer::Word(position))
    }

    /// `W peer create V ?option value ..?` (text(n), "PEER WIDGETS"), of a widget of the document at a place.
    fn create_peer(&mut self, place: usize, request: &Request<'_>) -> Result<Answer, Fault>
        requires place { place < length self.old.documents }
        requires shown { request.now.caller.seat < length (document_at self.old.documents place).widgets }
        ensures { let document = document_at self.old.documents place in
            Makes self.old self.new result (changed self.old place
            (peer_create self.old.limits (all_windows self.old) document (widget_of document request.now)
            request.now.position (words_of request.now))) }
    {
        let document = &self.documents.list[place];
        let (name, words) = request.one_or_more()?;
        if !is_window_name(name) {
            return Err(Fault::InvalidCommandName(request.position));
        }
        let settings = peer_settings(document, request.caller.seat, request.position + 1, words)?;
        self.add_peer(place, request.position, name, settings)
    }

    /// A command of a widget of the document at a place. Where the caller follows the text, it reports what it changed
    /// of that.
    #[inline(always)]
    fn on_seat(
        &mut self,
        place: usize,
        command: Command,
        request: &Request<'_>,
    ) -> Result<Told, Fault>
        requires place { place < length self.old.documents }
        requires shown { request.now.caller.seat < length (document_at self.old.documents place).widgets }
        requires limits { request.now.caller.limits.now ≡ self.old.limits }
        ensures makes { Makes self.old self.new (answer_of result) (request_step self.old place command request.now) }
        ensures tells { request.now.caller.follows ≡ true → IfOk result (λ told.
            TellsAt self.old self.new (Some place) (request_step self.old place command request.now).edits told.edit) }
        ensures unmarked { IfOk result (λ told. told.marks ≡ []) }
        ensures frugal { is_frugal command ≡ true → result ≢ Err Fault.Memory }
    {
        match command {
            Command::PeerCreate => {
                let made = self.create_peer(place, request);
                answered(self.documents.alloc, made)
            }
            _ => carry_out(&mut self.documents.list[place], command, request),
        }
    }

    /// The same command, of a caller who follows the text. It also reports the marks that it displaced.
    fn on_seat_with_marks(
        &mut self,
        place: usize,
        command: Command,
        request: &Request<'_>,
    ) -> Result<Told, Fault>
        requires place { place < length self.old.documents }
        requires shown { request.now.caller.seat < length (document_at self.old.documents place).widgets }
        requires limits { request.now.caller.limits.now ≡ self.old.limits }
        requires follows { request.now.caller.follows ≡ true }
        ensures makes { Makes self.old self.new (answer_of result) (request_step self.old place command request.now) }
        ensures tells { IfOk result (λ told.
            TellsAt self.old self.new (Some place) (request_step self.old place command request.now).edits told.edit) }
        ensures marks { IfOk result (λ told.
            MarksTellAt self.old self.new (Some place) told.edit.changes told.marks) }
        ensures frugal { is_frugal command ≡ true → result ≢ Err Fault.Memory }
    {
        let mut marks = marks_before(&self.documents.list[place], command, request)?;
        let told = self.on_seat(place, command, request)?;
        self.documents.list[place].settle_marks(&mut marks, &told.edit.changes);
        Ok(Told {
            answer: told.answer,
            edit: told.edit,
            marks,
        })
    }

    /// A command of the widget of a name, of all its words. It reports what it changed of what the caller follows.
    fn on_widget(&mut self, name: &str, words: &[String], follows: Follows) -> Result<Told, Fault>
        requires { 0 < length words.now }
        ensures makes { Makes self.old self.new (answer_of result)
            (on_widget self.old (chars name.now) (texts_of words.now)) }
        ensures tells { follows.text ≡ true → IfOk result (λ told.
            TellsAt self.old self.new (home (chars name.now) self.old.documents)
            (on_widget self.old (chars name.now) (texts_of words.now)).edits told.edit) }
        ensures marks { follows.marks ≡ true → IfOk result (λ told. MarksTellAt self.old self.new
            (home (chars name.now) self.old.documents) told.edit.changes told.marks) }
        ensures unasked { follows.marks ≡ false → IfOk result (λ told. told.marks ≡ []) }
        ensures frugal { is_frugal_reading (reading (texts_of words.now)) ≡ true → result ≢ Err Fault.Memory }
    {
        let Some((place, seat)) = self.documents.find(name) else {
            return Err(Fault::InvalidCommandName(0));
        };
        let shape = shape(words).map_err(Fault::of_shape)?;
        let limits = self.limits;
        let caller = Caller {
            limits: &limits,
            seat,
            follows: follows.text || follows.marks,
        };
        let request = Request::of(caller, shape, words);
        if follows.marks {
            self.on_seat_with_marks(place, shape.command, &request)
        } else {
            self.on_seat(place, shape.command, &request)
        }
    }

    /// The document that the widget of a name shows.
    fn document(&self, name: &str) -> Option<&Document<S>>
        ensures { option_map (λ document. document.now) result
            ≡ option_map (document_at self.now.documents) (home (chars name.now) self.now.documents) }
    {
        let (place, _) = self.documents.find(name)?;
        Some(&self.documents.list[place])
    }

    /// Whether `edit undo` would find something to undo in the text that the widget of a name shows (text(n), "edit
    /// canundo"); None where no widget has the name.
    pub fn can_undo(&self, name: &str) -> Option<bool>
        ensures { result ≡ can_undo_by self.now (chars name.now) }
    {
        Some(self.document(name)?.can_undo())
    }

    /// Whether `edit redo` would find something to redo there (text(n), "edit canredo"); None where no widget has the
    /// name.
    pub fn can_redo(&self, name: &str) -> Option<bool>
        ensures { result ≡ can_redo_by self.now (chars name.now) }
    {
        Some(self.document(name)?.can_redo())
    }

    /// The place of the document that the widget of a name shows, in the order of creation; None where no widget has
    /// the name. Two widgets of one place show the same text.
    pub fn home(&self, name: &str) -> Option<usize>
        ensures { result ≡ home (chars name.now) self.now.documents }
    {
        let (place, _) = self.documents.find(name)?;
        Some(place)
    }

    /// The place of the document that a command's widget shows; None where its first word names no widget.
    pub fn home_of_words(&self, words: &[String]) -> Option<usize>
        ensures { result ≡ text_of_words self.now (texts_of words.now) }
    {
        match words {
            [name, ..] => self.home(name.as_str()),
            [] => None,
        }
    }

    /// Returns where each widget is, if these are the words of `destroy` and it is asked for; else nothing. By this the
    /// report of the command says which widgets showed one text.
    pub fn homes_before(&self, words: &[String], asked: bool) -> Result<Windows, AllocError>
        ensures { IfOk result (λ homes. homes ≡ homes_asked asked self.now.documents (texts_of words.now)) }
    {
        let alloc = self.documents.alloc;
        if !asked {
            return Ok(Windows::new(alloc));
        }
        match words {
            [name, ..] if is_word(name.as_str(), "destroy") => self.documents.homes(),
            _ => Ok(Windows::new(alloc)),
        }
    }

    /// Carries out a command of one word or more. It reports what it changed of what the caller follows.
    #[inline(always)]
    fn carry_out(&mut self, words: &[String], follows: Follows) -> Result<Told, Fault>
        requires { 0 < length words.now }
        ensures makes { Makes self.old self.new (answer_of result) (step self.old (texts_of words.now)) }
        ensures tells { follows.text ≡ true →
            IfOk result (λ told. TellsOf self.old self.new (texts_of words.now) told.edit) }
        ensures marks { follows.marks ≡ true → IfOk result (λ told.
            MarksTellOf self.old self.new (texts_of words.now) told.edit.changes told.marks) }
        ensures unasked { follows.marks ≡ false → IfOk result (λ told. told.marks ≡ []) }
        ensures frugal { are_frugal (texts_of words.now) ≡ true → result ≢ Err Fault.Memory }
    {
        let alloc = self.documents.alloc;
        let [name, ..] = words else { unreachable!() };
        let name = name.as_str();
        if is_word(name, "text") {
            answered(alloc, self.create_shaped(words))
        } else if is_word(name, "destroy") {
            self.destroy_shaped(words, follows.marks)
        } else {
            self.on_widget(name, words, follows)
        }
    }

    /// Carries out a command as `call` does, and reports what it changed of the text that its widget shows and of the
    /// tags there, if its first word names one. Where marks are asked for, it also reports each mark that these changes
    /// alone don't take to where it is, that is new or gone, or has another gravity, and `destroy` those of the widgets
    /// that it drops. The report is allocated before anything changes, so where an allocation fails the world is as it
    /// was.
    pub fn call_told(&mut self, words: &[String], marks: bool) -> Result<Told, Fault>
        requires { 0 < length words.now }
        ensures makes { Makes self.old self.new (answer_of result)
            (step self.old (texts_of words.now)) }
        ensures tells { IfOk result (λ told. TellsOf self.old self.new (texts_of words.now) told.edit) }
        ensures marks { marks ≡ true → IfOk result (λ told.
            MarksTellOf self.old self.new (texts_of words.now) told.edit.changes told.marks) }
        ensures unasked { marks ≡ false → IfOk result (λ told. told.marks ≡ []) }
        ensures frugal { are_frugal (texts_of words.now) ≡ true → result ≢ Err Fault.Memory }
    {
        let follows = Follows { text: true, marks };
        self.carry_out(words, follows)
    }

    /// Carries out a command of one word or more. A fault leaves the world as it was.
    pub fn call(&mut self, words: &[String]) -> Result<Answer, Fault>
        requires { 0 < length words.now }
        ensures makes { Makes self.old self.new result (step self.old (texts_of words.now)) }
        ensures frugal { are_frugal (texts_of words.now) ≡ true → result ≢ Err Fault.Memory }
    {
        let follows = Follows {
            text: false,
            marks: false,
        };
        Ok(self.carry_out(words, follows)?.answer)
    }
}
