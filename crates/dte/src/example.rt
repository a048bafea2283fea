// A grader with five objects: two programs, the weight limits, a day's log and a label.
// Boot starts the scale and, where it wishes so, the printer. The scale reads the limits and writes the log;
// the printer reads the log and makes labels.
pub(crate) const MODULE: &str = "types t_any t_bin t_lim t_log
domains d_boot d_scale d_print
default_d d_boot
default_rt t_any
spec_domain d_boot (/boot) (d->t_any rxd->t_bin) (auto->d_scale exec->d_print) ()
spec_domain d_scale (/bin/scale) (d->t_any r->t_lim wa->t_log) () ()
spec_domain d_print (/bin/print) (d->t_any r->t_log c->t_any) () ()
assign -r /bin t_bin
assign -e /lim t_lim
assign -u /log t_log
object /bin/scale
object /bin/print
object /lim
object /log/day
object /label
";
