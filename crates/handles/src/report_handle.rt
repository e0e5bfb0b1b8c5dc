//! A report that C keeps, through a pointer.
ghost use Rattle.std.specs.Prelude.{◌≡◌, true, false, Option, Some, None, IsSome, is_some};
ghost use Rattle.std.specs.Coded.{coded_option};
ghost use Rattle.handles.specs.declared.report.Report.{Report as TheReport};
ghost use Rattle.handles.specs.contracts.report.Report.{the_row as report_row};
ghost use Rattle.handles.specs.Held.{held_value};

use super::loose::Loose;
use super::report::Report;
use std::alloc::Global;
use std::marker::Model;
use std::{mem, ptr};

/// Nothing, or a report on the heap.
#[repr(C)]
pub struct KeptReport {
    at: *mut u8,
    pub ghost report: { Option TheReport } by { coded_option report_row.coded },
}

impl Model for KeptReport {
    ghost also_owns = { λ k. held_value report_row k.at k.report };
}

impl KeptReport {
    pub(crate) fn nothing() -> KeptReport
        ensures { result.report ≡ None }
    {
        KeptReport {
            at: ptr::null_mut(),
        }
    }

    fn spent(self)
        requires { self.report ≡ None }
    {
        let KeptReport { at: _ } = self;
    }

    pub(crate) fn of_loose(report: Loose<Report, Global>) -> KeptReport
        ensures { result.report ≡ Some report.value }
    {
        let Loose { at, alloc: _ } = report;
        KeptReport { at: at as *mut u8 }
    }

    pub(crate) fn into_loose(self, alloc: Global) -> Loose<Report, Global>
        requires { IsSome self.report }
        ensures { self.report ≡ Some result.value }
    {
        let KeptReport { at } = self;
        Loose {
            at: at as *mut Report,
            alloc,
        }
    }
}

/// What C holds. It never follows the pointer inside.
#[repr(C)]
pub struct ReportHandle {
    pub full: bool,
    kept: KeptReport,
    ghost agrees: { full ≡ is_some kept.report },
}

impl ReportHandle {
    /// Returns an empty handle.
    pub fn empty() -> ReportHandle
        ensures full { result.full ≡ false }
        ensures report { result.kept.report ≡ None }
    {
        ReportHandle {
            full: false,
            kept: KeptReport::nothing(),
        }
    }

    pub(crate) fn of(report: Box<Report, Global>) -> ReportHandle
        ensures full { result.full ≡ true }
        ensures report { result.kept.report ≡ Some report.value }
    {
        ReportHandle {
            full: true,
            kept: KeptReport::of_loose(Loose::of(report)),
        }
    }

    pub(crate) fn into_box(self, alloc: Global) -> Box<Report, Global>
        requires { self.full ≡ true }
        ensures { self.kept.report ≡ Some result.value }
    {
        let ReportHandle { full: _, kept } = self;
        kept.into_loose(alloc).into_box()
    }

    /// Takes the report out of a full handle, which is empty then.
    pub(crate) fn take(&mut self, alloc: Global) -> Box<Report, Global>
        requires { self.old.full ≡ true }
        ensures value { self.old.kept.report ≡ Some result.value }
        ensures empty { self.new.full ≡ false }
    {
        mem::replace(self, ReportHandle::empty()).into_box(alloc)
    }

    /// Puts a report into an empty handle.
    pub(crate) fn put(&mut self, report: Box<Report, Global>)
        requires { self.old.full ≡ false }
        ensures full { self.new.full ≡ true }
        ensures report { self.new.kept.report ≡ Some report.value }
    {
        mem::replace(self, ReportHandle::of(report)).spent();
    }

    /// Lets an empty handle go.
    pub fn spent(self)
        requires { self.full ≡ false }
    {
        let ReportHandle { full: _, kept } = self;
        kept.spent();
    }
}
