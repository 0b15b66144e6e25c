//! A table of the open synchronization points.

ghost use Rattle.std.specs.Prelude.{IsTrue, ◌↔◌, ◌≡◌, ◌<◌, ◌≤◌, ◌++◌, ◌∷◌, [], not, ltb, length, map, find, option_copied, IfOk, IfErr, OnOk, OnErr};
ghost use Rattle.std.specs.List.{position};
ghost use Rattle.std.specs.Str.{bytes_eq};
ghost use Rattle.hla_base.specs.declared.fault.Fault.TheVariants.{OutOfMemory};
ghost use Rattle.hla_base.specs.Limits.{max_joins, max_open_points};
ghost use Rattle.hla_synchronization.specs.Points.{new_point, is_open, may_achieve, with_point, announced_to, achieved_by, is_achieved_by_all, closing, left_open, announcement_of, closing_of};
ghost use Rattle.hla_synchronization.specs.OpenPoints.{point_of, points_of, members_in};

use hla_base::{
    Fault, FederateNo, FederateSet, MAX_JOINS, MAX_OPEN_POINTS, Notice, NoticeKind, Plain,
    SharedList,
};
use std::alloc::Global;
use std::marker::Model;

/// A synchronization point that is open.
#[derive(Debug)]
pub struct OpenPoint {
    /// Its label, of 1 to 64 bytes.
    pub label: SharedList<u8>,
    /// Which federates were told of it.
    pub announced: FederateSet,
    /// Which of them have achieved it.
    pub achieved: FederateSet,
}

// By name and not derived, so that it is proved here alone, and not by each crate that owns one.
impl Drop for OpenPoint {
    fn drop(self) {
        let OpenPoint {
            label: _,
            announced: _,
            achieved: _,
        } = self;
    }
}

/// The synchronization points of an execution that are open, in order of opening. While none is, it is no larger than a
/// pointer. The time of each call grows with the points. Contracts see a list, which `points_of` reads.
#[derive(Debug, Drop)]
pub struct OpenPoints {
    table: Option<Box<Vec<OpenPoint>>>,
}

impl Model for OpenPoints {
    ghost use Rattle.std.specs.Prelude.{List, []};
    ghost use Rattle.std.specs.Option.{option_map_or};
    ghost use Rattle.hla_synchronization.specs.declared.open_points.OpenPoint.{OpenPoint};

    ghost Value = { List OpenPoint };

    ghost view = { λ p. option_map_or (λ t. t.value.items) p.table [] };
}

/// The point of a label among these, if there is one.
fn point_labelled<'a>(points: &'a [OpenPoint], label: &[u8]) -> Option<&'a OpenPoint>
    ensures { option_copied result
        ≡ find (λ (p : OpenPoint). bytes_eq p.label label.now) points.now }
{
    points.iter().find(|point| point.label.as_slice() == label)
}

/// The place of the point of a label among these, if there is one.
fn place_of(points: &[OpenPoint], label: &[u8]) -> Option<usize>
    ensures { result ≡ position (λ (p : OpenPoint). bytes_eq p.label label.now) points.now }
{
    points
        .iter()
        .position(|point| point.label.as_slice() == label)
}

/// Whether each of these members has achieved a point.
#[tactic(auto, using(crate::proofs::PointLemmas::all_more, crate::proofs::PointLemmas::all_none))]
fn is_achieved_by_all(point: &OpenPoint, members: &FederateSet) -> bool
    ensures { result ≡ is_achieved_by_all (members_in members.now) (point_of point.now) }
{
    let mut by_all = true;
    for federate in 0..MAX_JOINS as FederateNo + 1 {
        let is_awaited = members.has(federate) && !point.achieved.has(federate);
        by_all = by_all && !is_awaited;
    }
    by_all
}

/// A federate is told of the point of a label.
fn announce_among(points: &mut Vec<OpenPoint>, federate: FederateNo, label: &[u8])
    requires some { 0 < federate }
    requires within { federate ≤ max_joins }
    ensures { points_of points.new.items ≡
        with_point (announced_to federate) label.now (points_of points.old.items) }
{
    if let Some(place) = place_of(points, label) {
        points[place].announced.add(federate);
    }
}

/// A federate achieves the point of a label.
fn achieve_among(points: &mut Vec<OpenPoint>, federate: FederateNo, label: &[u8])
    requires some { 0 < federate }
    requires within { federate ≤ max_joins }
    ensures { points_of points.new.items ≡
        with_point (achieved_by federate) label.now (points_of points.old.items) }
{
    if let Some(place) = place_of(points, label) {
        points[place].achieved.add(federate);
    }
}

/// Those go that each of these members has achieved.
fn close_among(points: &mut Vec<OpenPoint>, members: FederateSet)
    ensures { points_of points.new.items
        ≡ left_open (members_in members) (points_of points.old.items) }
{
    points.retain(|point| !is_achieved_by_all(point, &members));
}

/// A copy of a point, whose label both share; `OutOfMemory` where one more share was refused.
fn copy_of(point: &OpenPoint) -> Result<OpenPoint, Fault>
    ensures ok { IfOk result (λ p. p ≡ point.now) }
    ensures err { IfErr result (λ e. e ≡ Fault.OutOfMemory) }
{
    Ok(OpenPoint {
        label: point.label.copy()?,
        announced: point.announced,
        achieved: point.achieved,
    })
}

/// Copies of these points; `OutOfMemory` where a growth was refused.
fn copies_of(alloc: Global, points: &[OpenPoint]) -> Result<Vec<OpenPoint>, Fault>
    ensures ok { IfOk result (λ v. v.items ≡ points.now) }
    ensures err { IfErr result (λ e. e ≡ Fault.OutOfMemory) }
{
    let mut copies = Vec::new(alloc);
    for point in points {
        let copy = copy_of(point)?;
        if copies.push(copy).is_err() {
            return Err(Fault::OutOfMemory);
        }
    }
    Ok(copies)
}

/// What there is to be told of a point; `OutOfMemory` where one more share of its label was refused.
fn notice_of(point: &OpenPoint, kind: NoticeKind) -> Result<Notice, Fault>
    ensures ok { IfOk result (λ n. n ≡ record { kind = kind; label = point.now.label }) }
    ensures err { IfErr result (λ e. e ≡ Fault.OutOfMemory) }
{
    Ok(Notice {
        kind,
        label: point.label.copy()?,
    })
}

/// That each of these points is open; `OutOfMemory` where a growth was refused.
fn announcements_of(alloc: Global, points: &[OpenPoint]) -> Result<Vec<Notice>, Fault>
    ensures ok { IfOk result (λ v. v.items ≡ map announcement_of (points_of points.now)) }
    ensures err { IfErr result (λ e. e ≡ Fault.OutOfMemory) }
{
    let mut notices = Vec::new(alloc);
    for point in points {
        let notice = notice_of(point, NoticeKind::Announced)?;
        if notices.push(notice).is_err() {
            return Err(Fault::OutOfMemory);
        }
    }
    Ok(notices)
}

/// That those of these points close which each of these members has achieved; `OutOfMemory` where a growth was refused.
fn closings_of(
    alloc: Global,
    points: &[OpenPoint],
    members: FederateSet,
) -> Result<Vec<Notice>, Fault>
    ensures ok { IfOk result
        (λ v. v.items ≡ map closing_of (closing (members_in members) (points_of points.now))) }
    ensures err { IfErr result (λ e. e ≡ Fault.OutOfMemory) }
{
    let mut notices = Vec::new(alloc);
    for point in points {
        if is_achieved_by_all(point, &members) {
            let notice = notice_of(point, NoticeKind::Synchronized)?;
            if notices.push(notice).is_err() {
                return Err(Fault::OutOfMemory);
            }
        }
    }
    Ok(notices)
}

/// One more point, in a table of its own. `OutOfMemory` where the table was refused its memory.
fn table_of(alloc: Global, point: OpenPoint) -> Result<Box<Vec<OpenPoint>>, Fault>
    ensures ok { IfOk result (λ t. t.value.items ≡ point ∷ []) }
    ensures err { IfErr result (λ e. e ≡ Fault.OutOfMemory) }
{
    let mut points = Vec::new(alloc);
    if points.push(point).is_err() {
        return Err(Fault::OutOfMemory);
    }
    match Box::new(alloc, points) {
        Ok(table) => Ok(table),
        Err(_) => Err(Fault::OutOfMemory),
    }
}

impl OpenPoints {
    /// No point is open; it takes no memory.
    pub fn new() -> OpenPoints
        ensures { points_of result ≡ [] }
    {
        OpenPoints { table: None }
    }

    /// The points, in order of opening.
    fn points(&self) -> &[OpenPoint]
        ensures { result.now ≡ self.now }
    {
        match &self.table {
            Some(points) => points.as_slice(),
            None => &[],
        }
    }

    /// Whether no point is open. It is at hand.
    pub fn is_empty(&self) -> bool
        ensures { IsTrue result ↔ (points_of self.now ≡ []) }
    {
        self.points().is_empty()
    }

    /// Whether as many points are open as may be.
    pub fn is_full(&self) -> bool
        ensures { result ≡ not (ltb (length (points_of self.now)) max_open_points) }
    {
        self.points().len() >= MAX_OPEN_POINTS
    }

    /// Whether a point of this label is open.
    pub fn is_open(&self, label: &[u8]) -> bool
        ensures { result ≡ is_open label.now (points_of self.now) }
    {
        point_labelled(self.points(), label).is_some()
    }

    /// Whether a federate may achieve the point of this label: it is open, and the federate was told of it and has not
    /// achieved it (HLA 1.3, federation management, Synchronization Point Achieved).
    pub fn may_achieve(&self, federate: FederateNo, label: &[u8]) -> bool
        ensures { result ≡ may_achieve federate label.now (points_of self.now) }
    {
        match point_labelled(self.points(), label) {
            Some(point) => point.announced.has(federate) && !point.achieved.has(federate),
            None => false,
        }
    }

    /// A point of this label opens, behind the others: nobody was told of it, and nobody has achieved it (HLA 1.3,
    /// federation management, Register Federation Synchronization Point). `OutOfMemory`, and all as it was, where a growth
    /// was refused.
    pub fn open(&mut self, alloc: Global, label: SharedList<u8>) -> Result<(), Fault>
        ensures ok { OnOk result (points_of self.new ≡ points_of self.old ++ new_point label ∷ []) }
        ensures err { IfErr result (λ e. e ≡ Fault.OutOfMemory) }
        ensures unchanged { OnErr result (self.new ≡ self.old) }
    {
        let point = OpenPoint {
            label,
            announced: FederateSet::new(),
            achieved: FederateSet::new(),
        };
        match &mut self.table {
            Some(points) => match points.push(point) {
                Ok(()) => Ok(()),
                Err(_) => Err(Fault::OutOfMemory),
            },
            None => {
                self.table = Some(table_of(alloc, point)?);
                Ok(())
            }
        }
    }

    /// A federate was told of the point of this label, if one is open (HLA 1.3, federation management, Announce
    /// Synchronization Point). It takes no memory.
    pub fn announce(&mut self, federate: FederateNo, label: &[u8])
        requires some { 0 < federate }
        requires within { federate ≤ max_joins }
        ensures { points_of self.new ≡
            with_point (announced_to federate) label.now (points_of self.old) }
    {
        if let Some(points) = &mut self.table {
            announce_among(points, federate, label);
        }
    }

    /// A federate has achieved the point of this label, if one is open (HLA 1.3, federation management, Synchronization
    /// Point Achieved). It takes no memory.
    pub fn achieve(&mut self, federate: FederateNo, label: &[u8])
        requires some { 0 < federate }
        requires within { federate ≤ max_joins }
        ensures { points_of self.new ≡
            with_point (achieved_by federate) label.now (points_of self.old) }
    {
        if let Some(points) = &mut self.table {
            achieve_among(points, federate, label);
        }
    }

    /// What a newcomer is to be told: that each point is open, in order of opening. Nothing changes. `OutOfMemory` where a
    /// growth was refused, which happens while a point is open.
    pub fn announcements(&self, alloc: Global) -> Result<Vec<Notice>, Fault>
        ensures ok { IfOk result (λ v. v.items ≡ map announcement_of (points_of self.now)) }
        ensures err { IfErr result (λ e. e ≡ Fault.OutOfMemory) }
    {
        announcements_of(alloc, self.points())
    }

    /// What these members are to be told where `close` follows: that each point closes which all of them have achieved, in
    /// order of opening (HLA 1.3, federation management, Federation Synchronized). Nothing changes. `OutOfMemory` where a
    /// growth was refused, which happens while a point closes.
    pub fn closings(&self, alloc: Global, members: FederateSet) -> Result<Vec<Notice>, Fault>
        ensures ok { IfOk result
            (λ v. v.items ≡ map closing_of (closing (members_in members) (points_of self.now))) }
        ensures err { IfErr result (λ e. e ≡ Fault.OutOfMemory) }
    {
        closings_of(alloc, self.points(), members)
    }

    /// Each point closes that all of these members have achieved; where nobody is a member, all do. It takes no memory, and
    /// gives back what the table took where no point is left.
    pub fn close(&mut self, members: FederateSet)
        ensures { points_of self.new ≡ left_open (members_in members) (points_of self.old) }
    {
        if let Some(points) = &mut self.table {
            close_among(points, members);
        }
        if self.is_empty() {
            self.table = None;
        }
    }

    /// A copy; `OutOfMemory` where a growth was refused, which happens while a point is open.
    pub fn copy(&self, alloc: Global) -> Result<OpenPoints, Fault>
        ensures ok { IfOk result (λ p. p ≡ self.now) }
        ensures err { IfErr result (λ e. e ≡ Fault.OutOfMemory) }
    {
        let Some(points) = &self.table else {
            return Ok(OpenPoints { table: None });
        };
        let copies = copies_of(alloc, points)?;
        match Box::new(alloc, copies) {
            Ok(table) => Ok(OpenPoints { table: Some(table) }),
            Err(_) => Err(Fault::OutOfMemory),
        }
    }
}
