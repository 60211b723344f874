//! How the page looks and what it does. `make/look.py` writes this file from `look/page.bar`.

/// The links of the views, and the search form.
pub(crate) const BAR: &[u8] = b"\
<nav aria-label=\"Views\">
<a href=\"#timetable\">Timetable</a>
<a href=\"#day\" class=\"js-only\">Day</a>
<a href=\"#changes\" class=\"js-only\">Changes</a>
<a href=\"#messages\" class=\"js-only\">Messages</a>
<a href=\"#network\" class=\"js-only\">Network</a>
</nav>
<form role=\"search\">
<input id=\"words\" type=\"search\" autocomplete=\"off\" spellcheck=\"false\" aria-label=\"Search\">
<span class=\"week\" role=\"group\" aria-label=\"Weekdays\"></span>
<input id=\"date\" type=\"date\" aria-label=\"Operates on\">
<span id=\"count\" role=\"status\"></span>
</form>
</header>
";
